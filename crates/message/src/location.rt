// Message 4: one half of the transmitter's location.
ghost use Rattle.std.specs.Prelude.{◌≡◌, ℕ, ◌^◌, ◌<◌, true};
ghost use Rattle.message.specs.Location.{angle_of, half_under, in_range_under, packed_under, half_of, half_in_range, half_packed, location_of};
ghost use Rattle.message.specs.Results.{in_range};

use crate::bits::{Signed, field_of};
use pdu::refusal::Refusal;

// An angle's field: signed, 22 bits.
const ANGLE_FIELD: Signed = Signed { half: 1 << 21 };

// An angle in units of 1/8192 degree; north and east are positive.
#[derive(Clone, Copy)]
pub struct Angle(pub i32);

// An altitude in units of 16 metres.
#[derive(Clone, Copy)]
pub struct Altitude(pub u8);

// One half of the location: an angle of at most so many units either way.
#[derive(Clone, Copy)]
pub struct Half<const LIMIT: u32> {
    pub angle: Angle,
    // Four bits of the altitude: the upper in a latitude half, the lower in a longitude half.
    pub altitude: u8,
}

// 90 and 180 degrees.
const LATITUDE_LIMIT: u32 = 737_280;

const LONGITUDE_LIMIT: u32 = 1_474_560;

pub type LatitudeHalf = Half<LATITUDE_LIMIT>;

pub type LongitudeHalf = Half<LONGITUDE_LIMIT>;

#[derive(Clone, Copy)]
pub enum LocationHalf {
    Latitude(LatitudeHalf),
    Longitude(LongitudeHalf),
}

impl Angle {
    fn parse(payload: u64) -> Angle
        ensures { result ≡ angle_of payload }
    {
        Angle(ANGLE_FIELD.number_of(field_of(payload, 22, 4)))
    }
}

impl<const LIMIT: u32> Half<LIMIT> {
    // The half in the last 26 bits of a payload.
    fn parse(payload: u64) -> Half<LIMIT>
        ensures { result ≡ half_under LIMIT payload }
    {
        Half {
            angle: Angle::parse(payload),
            altitude: field_of(payload, 4, 0) as u8,
        }
    }

    // The 26 bits of the half.
    fn packed(&self) -> u64
        requires { (LIMIT < 2 ^ 21) × (in_range_under LIMIT self.now ≡ true) }
        ensures value { result ≡ packed_under LIMIT self.now }
        ensures small { result < 2 ^ 26 }
    {
        ANGLE_FIELD.field_with(self.angle.0) * 16 + u64::from(self.altitude)
    }

    // Whether the angle is within its limit and the altitude has four bits.
    fn is_in_range(&self) -> bool
        ensures { result ≡ in_range_under LIMIT self.now }
    {
        self.angle.0.unsigned_abs() <= LIMIT && self.altitude < 16
    }
}

impl LocationHalf {
    // The half in a payload of 27 bits.
    pub(crate) fn parse(payload: u64) -> Result<LocationHalf, Refusal>
        ensures { result ≡ in_range (half_in_range (half_of payload)) (half_of payload) }
    {
        let half = if field_of(payload, 1, 26) == 1 {
            LocationHalf::Latitude(Half::parse(payload))
        } else {
            LocationHalf::Longitude(Half::parse(payload))
        };
        half.is_in_range()
            .then_some(half)
            .ok_or(Refusal::OutOfRange)
    }

    pub(crate) fn payload(self) -> Result<u64, Refusal>
        ensures { result ≡ in_range (half_in_range self) (half_packed self) }
    {
        self.is_in_range()
            .then(|| self.packed())
            .ok_or(Refusal::OutOfRange)
    }

    fn packed(self) -> u64
        requires { half_in_range self ≡ true }
        ensures { result ≡ half_packed self }
    {
        match self {
            LocationHalf::Latitude(half) => (1 << 26) + half.packed(),
            LocationHalf::Longitude(half) => half.packed(),
        }
    }

    fn is_in_range(&self) -> bool
        ensures { result ≡ half_in_range self.now }
    {
        match self {
            LocationHalf::Latitude(half) => half.is_in_range(),
            LocationHalf::Longitude(half) => half.is_in_range(),
        }
    }
}

// Latitude, longitude and altitude together, from both halves.
pub fn location(
    latitude: LatitudeHalf,
    longitude: LongitudeHalf,
) -> Result<(Angle, Angle, Altitude), Refusal>
    ensures { result ≡ location_of latitude longitude }
{
    if latitude.is_in_range() && longitude.is_in_range() {
        let altitude = latitude.altitude * 16 + longitude.altitude;
        Ok((latitude.angle, longitude.angle, Altitude(altitude)))
    } else {
        Err(Refusal::OutOfRange)
    }
}
