// What single messages tell of a station: the latest of each is kept.
#![tactic(auto)]

pub mod information;
#[cfg(test)]
mod tests;
