// The fading box: what the air does to PDUs, the same from the same seed.
#![tactic(auto)]

pub mod fade;
