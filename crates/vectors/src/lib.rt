// The worked bytes, and runs of many cases.
#![tactic(auto)]

#[cfg(test)]
mod gathering;
#[cfg(test)]
mod layouts;
#[cfg(test)]
mod messages;
#[cfg(test)]
mod pairs;
#[cfg(test)]
mod reading;
#[cfg(test)]
mod refusals;
pub mod worked;
