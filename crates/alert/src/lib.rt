// The alert: a text of up to 381 bytes that begins with control data, under a check.
#![tactic(auto)]

pub mod alert;
pub mod alert_family;
pub mod setting;
