// The monitor: a gatherer for each of three places, and what is told of the station.
mod calls;
mod questions;

use family::family::Family;
use gatherer::gatherer::Gatherer;
use station_information::information::StationInformation;

#[derive(Drop)]
pub struct Monitor<N: Family, M: Family, E: Family> {
    name: Gatherer<N>,
    message: Gatherer<M>,
    alert: Gatherer<E>,
    information: StationInformation,
}
