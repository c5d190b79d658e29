// What a PDU says: its contents, read from ten bytes and written to them.
#![tactic(auto)]

mod area;
pub mod codec;
pub mod contents;
mod reading;
mod writing;
