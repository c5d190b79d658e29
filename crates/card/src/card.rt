// The card: a station with one record at each of three places.
mod calls;
mod turns;

use crate::station::Station;
use airing::place::Place;
use family::family::Family;

// Whose turn the next draw is. The places are of three types, so a draw matches on it.
#[derive(Clone, Copy)]
enum Turn {
    Station,
    Name,
    Message,
    Alert,
}

#[derive(Drop)]
pub struct Card<N: Family, M: Family, E: Family> {
    station: Station,
    name: Place<N>,
    message: Place<M>,
    alert: Place<E>,
    turn: Turn,
}
