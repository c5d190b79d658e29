// One message of a PDU: its number, and what its payload says.
#![tactic(auto)]

mod bits;
pub mod location;
pub mod message;
pub mod parameter;
pub mod place;
pub mod service;
pub mod size;
pub mod station;
