// A card and a monitor over the three layouts: calls with their answers.
#![tactic(auto)]

#[cfg(test)]
mod card_tests;
#[cfg(test)]
mod loss_free;
#[cfg(test)]
mod monitor_tests;
#[cfg(test)]
mod refused_offers;
#[cfg(test)]
mod station;
