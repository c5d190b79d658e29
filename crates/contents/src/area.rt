// The message area: fields that follow one another, highest bit first, and the sizes that must fit in.
ghost use Rattle.std.specs.Prelude.{◌≡◌, ◌+◌, ◌-◌, ◌^◌, ◌<◌, ◌≤◌, IfOk, if◌then◌else◌};
ghost use Rattle.contents.specs.Area.{upper, lower, joined, size_within, first_size};

use message::size::payload_size;
use pdu::refusal::Refusal;

// So many bits of the message area.
#[derive(Clone, Copy)]
pub(crate) struct Area {
    pub(crate) bits: u64,
    pub(crate) width: u32,
    ghost narrow: { width ≤ 58 },
    ghost fits: { bits < 2 ^ width },
}

impl Area {
    // An area of zeros.
    pub(crate) fn zeros(width: u32) -> Area
        requires { width ≤ 58 }
        ensures bits { result.bits ≡ 0 }
        ensures width { result.width ≡ width }
    {
        Area { bits: 0, width }
    }

    // The first bits, and the area behind them.
    pub(crate) fn split(self, many: u32) -> (u64, Area)
        requires { many ≤ self.width }
        ensures first { result.0 ≡ upper (self.width - many) self.bits }
        ensures small { result.0 < 2 ^ many }
        ensures rest { result.1.bits ≡ lower (self.width - many) self.bits }
        ensures width { result.1.width ≡ self.width - many }
    {
        let width = self.width - many;
        let rest = Area {
            bits: self.bits % (1 << width),
            width,
        };
        (self.bits >> width, rest)
    }

    // The area with so many bits before it.
    pub(crate) fn behind(self, first: u64, many: u32) -> Area
        requires { (many + self.width ≤ 58) × (first < 2 ^ many) }
        ensures bits { result.bits ≡ joined first self.width self.bits }
        ensures width { result.width ≡ many + self.width }
    {
        Area {
            bits: first * (1 << self.width) + self.bits,
            width: many + self.width,
        }
    }
}

// The payload size of the first message; with a second one it leaves room for that one's number.
pub(crate) fn first_size(extension: bool, number: u8) -> Result<u32, Refusal>
    ensures value { result ≡ first_size extension number }
    ensures fits { IfOk result (λ size. size ≤ (if extension then 54 else 58)) }
{
    size_within(if extension { 54 } else { 58 }, number)
}

// The payload size of a message for which there is so much room.
pub(crate) fn size_within(room: u32, number: u8) -> Result<u32, Refusal>
    ensures value { result ≡ size_within room number }
    ensures fits { IfOk result (λ size. size ≤ room) }
{
    let size = payload_size(number)
        .map(u32::from)
        .ok_or(Refusal::ReservedMessage)?;
    if size > room {
        return Err(Refusal::PayloadsTooLong);
    }
    Ok(size)
}
