// A gatherer over a small family of its own, which is no layout of the product.
#![tactic(auto)]

pub mod both;
pub mod family_of_two;
#[cfg(test)]
mod tests;
pub mod two;
