// The monitor: it hears PDUs, and shows the texts of three places and what is told of the station.
#![tactic(auto)]

pub mod answer;
pub mod monitor;
