// The exercise: three texts are stored and sent through the fading box, one Store comes twice, and the message is changed halfway.
pub mod running;

use airing::stored::Stored;
use bench::bench::Bench;
use fading::fade::FadingBox;
use family::family::Family;
use family::text::{Record, Text};
use message::place::Place;
use pdu::refusal::Refusal;

// A bench with the fading box between its ends, and what was told of it so far, all lent.
#[derive(Drop)]
pub struct Exercise<'a, N: Family, M: Family, E: Family> {
    pub bench: &'a mut Bench<N, M, E>,
    pub fading: &'a mut FadingBox,
    pub log: &'a mut Vec<Entry>,
}

// The texts of the exercise, with heads of the three families.
#[derive(Clone, Copy)]
pub struct Texts<T, U, V> {
    pub name: Record<T>,
    pub message: Record<U>,
    pub alert: Record<V>,
    // What the message is changed to.
    pub changed: Record<U>,
}

// What is worth telling of a run, in the order in which it came.
#[derive(Clone, Copy)]
pub enum Entry {
    // A record was stored at a place, or refused there.
    Stored {
        place: Place,
        text: Text,
        answer: Result<Stored, Refusal>,
    },
    // The monitor refused a PDU, the one with this number among those drawn.
    Refused {
        drawn: u32,
        refusal: Refusal,
    },
    // A text was newly shown at a place.
    Shown {
        drawn: u32,
        place: Place,
        text: Text,
    },
}
