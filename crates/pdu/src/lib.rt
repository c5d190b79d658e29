// The ten bytes of a PDU: their fields, their check, and the refusals of the whole product.
#![tactic(auto)]

pub mod check;
pub mod divisor;
pub mod fields;
pub mod pdu;
pub mod refusal;
