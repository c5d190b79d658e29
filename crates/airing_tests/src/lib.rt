// A place over the small family of the gatherer's tests.
#![tactic(auto)]

pub mod round;
#[cfg(test)]
mod tests;
