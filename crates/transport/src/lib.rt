// PDUs and heads with the families of a station.
#![tactic(auto)]

pub mod families;
pub mod head;
