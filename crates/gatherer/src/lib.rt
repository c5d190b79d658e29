// Gathering the frames of a text at one place, for every family.
#![tactic(auto)]

pub mod answer;
pub mod gatherer;
