// One place of a card, heard by the same place of a monitor, for every family.
#![tactic(auto)]

pub mod link;
