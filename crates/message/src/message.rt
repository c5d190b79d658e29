// A message of any kind.
ghost use Rattle.std.specs.Prelude.{◌≡◌, ℕ, ◌^◌, ◌<◌, Ok, nat_lt};
ghost use Rattle.message.specs.Message.{number_of, single_of, message_of, parsed, payload_of};
ghost use Rattle.message.specs.Results.{in_range};

use crate::location::LocationHalf;
use crate::parameter::Parameter;
use crate::place::Place;
use crate::service::Service;
use crate::size::payload_size;
use crate::station::{ShortName, StationId};
use pdu::refusal::Refusal;

#[derive(Clone, Copy)]
pub enum Message {
    StationId(StationId),
    ShortName(ShortName),
    // A frame of a text, 58 bits.
    Frame(Place, u64),
    Location(LocationHalf),
    Service(Service),
    Parameter(Parameter),
    // The universal short name or slogan: 58 bits, not read.
    Universal(u64),
}

// parse and payload, also of each kind, are no TryFrom: what bits say depends on the number.
impl Message {
    // The message with this number and payload. A u8: reserved numbers come here too, and are
    // refused.
    pub fn parse(number: u8, payload: u64) -> Result<Message, Refusal>
        ensures value { result ≡ parsed number payload }
        ensures written_again { (m : Message) → result ≡ Ok m → (number_of m ≡ number) × (payload_of m ≡ Ok payload) }
    {
        let size = payload_size(number).ok_or(Refusal::ReservedMessage)?;
        if payload >= 1 << size {
            return Err(Refusal::OutOfRange);
        }
        Message::parse_sized(number, payload)
    }

    // A payload that fits its size.
    fn parse_sized(number: u8, payload: u64) -> Result<Message, Refusal>
        ensures { result ≡ message_of number payload }
    {
        match Place::try_from(number) {
            Ok(place) => Ok(Message::Frame(place, payload)),
            Err(_) => Message::parse_single(number, payload),
        }
    }

    // A message that is no text frame.
    fn parse_single(number: u8, payload: u64) -> Result<Message, Refusal>
        ensures { result ≡ single_of number payload }
    {
        match number {
            0 => Ok(Message::StationId(StationId::parse(payload))),
            1 => Ok(Message::ShortName(ShortName::parse(payload)?)),
            4 => Ok(Message::Location(LocationHalf::parse(payload)?)),
            6 => Ok(Message::Service(Service::parse(payload)?)),
            7 => Ok(Message::Parameter(Parameter::parse(payload))),
            8 => Ok(Message::Universal(payload)),
            _ => Err(Refusal::ReservedMessage),
        }
    }

    // The number of the message.
    pub fn number(self) -> u8
        ensures { result ≡ number_of self }
    {
        match self {
            Message::StationId(_) => 0,
            Message::ShortName(_) => 1,
            Message::Frame(place, _) => u8::from(place),
            Message::Location(_) => 4,
            Message::Service(_) => 6,
            Message::Parameter(_) => 7,
            Message::Universal(_) => 8,
        }
    }

    // The payload of the message.
    pub fn payload(self) -> Result<u64, Refusal>
        ensures value { result ≡ payload_of self }
        ensures read_again { (p : ℕ) → result ≡ Ok p → parsed (number_of self) p ≡ Ok self }
    {
        match self {
            Message::StationId(station) => station.payload(),
            Message::ShortName(name) => name.payload(),
            Message::Frame(_, payload) => whole_area(payload),
            Message::Location(half) => half.payload(),
            Message::Service(service) => service.payload(),
            Message::Parameter(parameter) => parameter.payload(),
            Message::Universal(payload) => whole_area(payload),
        }
    }
}

// A payload of 58 bits.
fn whole_area(payload: u64) -> Result<u64, Refusal>
    ensures { result ≡ in_range (nat_lt payload (2 ^ 58)) payload }
{
    (payload < 1 << 58)
        .then_some(payload)
        .ok_or(Refusal::OutOfRange)
}
