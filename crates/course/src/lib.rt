// The exercise of the bench course: texts stored at a card, sent through a fading box, and read back by a monitor.
#![tactic(auto)]

pub mod exercise;
pub mod shown;
