// An alert's two pieces, and the line that a display shows.
#![tactic(auto)]

pub mod line;
pub mod piece;
