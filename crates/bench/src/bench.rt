// The bench: a card and a monitor with the fading box between them, and what is counted there.
mod calls;
mod questions;

use crate::tally::Tally;
use air::link::Link;
use fading::fade::Fade;
use family::family::Family;
use gatherer::answer::Answer;
use pdu::pdu::Pdu;
use pdu::refusal::Refusal;

#[derive(Drop)]
pub struct Bench<N: Family, M: Family, E: Family> {
    link: Link<N, M, E>,
    tally: Tally,
}

// The monitor's answer to one copy of a PDU, if a copy came.
pub type CopyAnswer = Option<Result<Option<Answer>, Refusal>>;

// What became of one PDU: as it was drawn, and the monitor's answers to its copies.
#[derive(Clone, Copy)]
pub struct Passage {
    pub pdu: Pdu,
    pub fade: Fade,
    pub first: CopyAnswer,
    pub second: CopyAnswer,
}

// Whether a run is one that the promise on shown texts speaks of.
#[derive(Clone, Copy, PartialEq, Eq, Debug)]
pub enum Verdict {
    // No turned PDU was accepted, and no place had more than three changes: what was newly shown
    // at each place are the texts of its changes, in their order, each at most once.
    Covered,
    NotCovered,
}
