// What is kept of a station.
mod hearing;
mod questions;

use message::location::{LatitudeHalf, LongitudeHalf};
use message::parameter::{LeapSeconds, LocalTime};
use message::service::AudioService;
use message::station::{ShortName, StationId};

// An entry of the table of programs. A struct, since more may be told of a program.
#[derive(Clone, Copy)]
struct Program {
    audio: Option<AudioService>,
}

#[derive(Clone, Copy)]
pub struct StationInformation {
    station_id: Option<StationId>,
    short_name: Option<ShortName>,
    latitude: Option<LatitudeHalf>,
    longitude: Option<LongitudeHalf>,
    leap_seconds: Option<LeapSeconds>,
    local_time: Option<LocalTime>,
    // By program number.
    programs: [Program; 64],
}
