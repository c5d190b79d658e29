// The card: it puts the texts of three places on air, in PDUs.
#![tactic(auto)]

pub mod card;
pub mod station;
