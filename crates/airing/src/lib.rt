// What one place of the card has on air, for every family.
#![tactic(auto)]

pub mod place;
pub mod stored;
