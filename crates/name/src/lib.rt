// The station name: up to eight frames of seven characters.
#![tactic(auto)]

pub mod name;
