// A card and a monitor across the air: what the monitor shows are the card's texts.
#![tactic(auto)]

pub mod link;
