// What a frame family means, and the texts and records that it cuts into frames; and the family of every layout.
#![tactic(auto)]

pub mod family;
pub mod family_layout;
pub mod laid_out;
pub mod refusing;
pub mod text;
pub mod texts;
