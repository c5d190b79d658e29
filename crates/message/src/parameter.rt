// Message 7: a parameter of the station.
ghost use Rattle.std.specs.Prelude.{◌≡◌, ℕ, ◌^◌, ◌<◌, true, Ok};
ghost use Rattle.message.specs.Parameter.{leap_of, local_of, parameter_of, parameter_in_range, parameter_packed};
ghost use Rattle.message.specs.Results.{in_range};

use crate::bits::{Signed, field_of};
use pdu::refusal::Refusal;

// A field of seconds: signed, 8 bits.
const SECONDS: Signed = Signed { half: 128 };

// A field of minutes: signed, 11 bits.
const MINUTES: Signed = Signed { half: 1024 };

#[derive(Clone, Copy)]
pub struct Minutes(pub i16);

#[derive(Clone, Copy)]
pub struct LeapSeconds {
    pub pending: i8,
    pub current: i8,
}

#[derive(Clone, Copy)]
pub struct LocalTime {
    // From UTC, without daylight saving time; eleven bits.
    pub offset: Minutes,
    // The schedule of daylight saving time; three bits.
    pub schedule: u8,
    // Whether daylight saving time is practised locally, and whether it is in effect regionally.
    pub practised_locally: bool,
    pub in_effect: bool,
}

#[derive(Clone, Copy)]
pub enum Parameter {
    Leap(LeapSeconds),
    Local(LocalTime),
    // Any other index, with a value that is not read.
    Unread { index: u8, value: u16 },
}

impl LeapSeconds {
    fn parse(payload: u64) -> LeapSeconds
        ensures { result ≡ leap_of payload }
    {
        LeapSeconds {
            pending: SECONDS.number_of(field_of(payload, 8, 8)) as i8,
            current: SECONDS.number_of(field_of(payload, 8, 0)) as i8,
        }
    }
}

impl LocalTime {
    fn parse(payload: u64) -> LocalTime
        ensures { result ≡ local_of payload }
    {
        LocalTime {
            offset: Minutes(MINUTES.number_of(field_of(payload, 11, 5)) as i16),
            schedule: field_of(payload, 3, 2) as u8,
            practised_locally: field_of(payload, 1, 1) == 1,
            in_effect: field_of(payload, 1, 0) == 1,
        }
    }
}

impl Parameter {
    // The parameter in a payload of 22 bits.
    pub(crate) fn parse(payload: u64) -> Parameter
        ensures { result ≡ parameter_of payload }
    {
        match field_of(payload, 6, 16) {
            0 => Parameter::Leap(LeapSeconds::parse(payload)),
            3 => Parameter::Local(LocalTime::parse(payload)),
            index => Parameter::Unread {
                index: index as u8,
                value: field_of(payload, 16, 0) as u16,
            },
        }
    }

    pub(crate) fn payload(self) -> Result<u64, Refusal>
        ensures value { result ≡ in_range (parameter_in_range self) (parameter_packed self) }
        ensures read_again { (p : ℕ) → result ≡ Ok p → (p < 2 ^ 22) × (parameter_of p ≡ self) }
    {
        self.is_in_range()
            .then(|| self.packed())
            .ok_or(Refusal::OutOfRange)
    }

    fn packed(self) -> u64
        requires { parameter_in_range self ≡ true }
        ensures value { result ≡ parameter_packed self }
        ensures read_again { (result < 2 ^ 22) × (parameter_of result ≡ self) }
    {
        match self {
            Parameter::Leap(leap) => {
                let pending = SECONDS.field_with(i32::from(leap.pending));
                pending * 256 + SECONDS.field_with(i32::from(leap.current))
            }
            Parameter::Local(local) => {
                let offset = MINUTES.field_with(i32::from(local.offset.0));
                let schedule = offset * 8 + u64::from(local.schedule);
                let practised = schedule * 2 + u64::from(local.practised_locally);
                3 * 65_536 + practised * 2 + u64::from(local.in_effect)
            }
            Parameter::Unread { index, value } => u64::from(index) * 65_536 + u64::from(value),
        }
    }

    fn is_in_range(&self) -> bool
        ensures { result ≡ parameter_in_range self.now }
    {
        match self {
            Parameter::Leap(leap) => {
                SECONDS.fits(i32::from(leap.pending)) && SECONDS.fits(i32::from(leap.current))
            }
            Parameter::Local(local) => {
                MINUTES.fits(i32::from(local.offset.0)) && local.schedule < 8
            }
            Parameter::Unread { index, .. } => *index < 64 && *index != 0 && *index != 3,
        }
    }
}
