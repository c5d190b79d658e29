// The bench: a card and a monitor with a fading box between them, and what is counted there.
#![tactic(auto)]

pub mod bench;
pub mod tally;
