// Half of a location.
use message::location::LocationHalf;
use std::fmt;

#[derive(Clone, Copy)]
pub(crate) struct LocationWords(pub LocationHalf);

impl fmt::Display for LocationWords {
    fn fmt<W: fmt::Write>(&self, f: &mut fmt::Formatter<W>) -> fmt::Result {
        let (angle, units, side, part, metres) = match self.0 {
            LocationHalf::Latitude(half) => {
                let units = half.angle.0;
                let side = if units < 0 { "south" } else { "north" };
                let metres = u32::from(half.altitude) * 256;
                ("latitude", units, side, "upper", metres)
            }
            LocationHalf::Longitude(half) => {
                let units = half.angle.0;
                let side = if units < 0 { "west" } else { "east" };
                let metres = u32::from(half.altitude) * 16;
                ("longitude", units, side, "lower", metres)
            }
        };
        let degrees = units.unsigned_abs() as f64 / 8192.0;
        write!(
            f,
            "location: {angle} {degrees:.5} degrees {side} ({units}), {part} part of the altitude {metres} m"
        )
    }
}
