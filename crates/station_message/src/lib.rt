// The station message: a text of up to 190 bytes with a priority and an encoding.
#![tactic(auto)]

pub mod checksum;
pub mod message;
