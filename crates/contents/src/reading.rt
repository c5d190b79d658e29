// Contents read from the fields of a PDU.
ghost use Rattle.std.specs.Prelude.{◌≡◌, ◌-◌, ◌^◌, ◌<◌, ◌≤◌};
ghost use Rattle.contents.specs.Area.{upper, lower, size_within};
ghost use Rattle.contents.specs.Contents.{contents_of, both_messages, contents_with, if_nothing_left};

use crate::area::{Area, first_size, size_within};
use crate::contents::Contents;
use message::message::Message;
use pdu::fields::Fields;
use pdu::refusal::Refusal;

impl Contents {
    fn with(fields: Fields, first: Message, second: Option<Message>) -> Contents
        ensures { result ≡ contents_with fields first second }
    {
        Contents {
            first,
            second,
            reserved: fields.reserved,
            time_locked: fields.time_locked,
            pair: fields.pair,
        }
    }

    // The contents, if no leftover bit is set.
    fn if_nothing_left(self, leftover: u64) -> Result<Contents, Refusal>
        ensures { result ≡ if_nothing_left leftover self }
    {
        if leftover == 0 {
            Ok(self)
        } else {
            Err(Refusal::LeftoverBitSet)
        }
    }

    // The contents of a PDU with these fields.
    pub(crate) fn from_fields(fields: Fields) -> Result<Contents, Refusal>
        requires { fields.area < 2 ^ 58 }
        ensures { result ≡ contents_of fields }
    {
        let area = Area {
            bits: fields.area,
            width: 58,
        };
        let size = first_size(fields.extension, fields.number)?;
        let (payload, rest) = area.split(size);
        if fields.extension {
            return Contents::two_messages(fields, payload, rest);
        }
        let first = Message::parse(fields.number, payload)?;
        Contents::with(fields, first, None).if_nothing_left(rest.bits)
    }

    // Two messages: behind the first payload stand the second's number and payload.
    fn two_messages(fields: Fields, payload: u64, rest: Area) -> Result<Contents, Refusal>
        requires { 4 ≤ rest.width }
        ensures { let room = rest.width - 4 in let number = upper room rest.bits in
            result ≡ both_messages fields payload number room (lower room rest.bits) (size_within room number) }
    {
        let (number, behind) = rest.split(4);
        let number = number as u8;
        let second_size = size_within(behind.width, number)?;
        let (second_payload, leftover) = behind.split(second_size);
        let first = Message::parse(fields.number, payload)?;
        let second = Message::parse(number, second_payload)?;
        Contents::with(fields, first, Some(second)).if_nothing_left(leftover.bits)
    }
}
