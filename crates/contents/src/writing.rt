// Contents written to the fields of a PDU.
ghost use Rattle.std.specs.Prelude.{◌≡◌, ℕ, ◌^◌, ◌<◌, Bool, true, false, Some, None, Ok};
ghost use Rattle.contents.specs.Contents.{contents_of, fields_of, fields_with, one_written, two_written, with_second};

use crate::area::{Area, first_size, size_within};
use crate::contents::Contents;
use message::message::Message;
use pdu::fields::Fields;
use pdu::refusal::Refusal;

impl Contents {
    // The fields of the PDU with these contents.
    pub(crate) fn fields(self) -> Result<Fields, Refusal>
        ensures value { result ≡ fields_of self }
        ensures read_again { (f : Fields) → result ≡ Ok f → contents_of f ≡ Ok self }
    {
        match self.second {
            None => self.one_written(),
            Some(second) => self.two_written(second),
        }
    }

    fn fields_with(self, extension: bool, area: u64) -> Fields
        ensures { result ≡ fields_with self extension area }
    {
        Fields {
            extension,
            number: self.first.number(),
            area,
            reserved: self.reserved,
            time_locked: self.time_locked,
            pair: self.pair,
        }
    }

    fn one_written(self) -> Result<Fields, Refusal>
        ensures value { result ≡ one_written self }
        ensures read_again { (f : Fields) → result ≡ Ok f → contents_of f ≡ Ok (with_second self None) }
    {
        let size = first_size(false, self.first.number())?;
        let payload = self.first.payload()?;
        let area = Area::zeros(58 - size).behind(payload, size);
        Ok(self.fields_with(false, area.bits))
    }

    fn two_written(self, second: Message) -> Result<Fields, Refusal>
        ensures value { result ≡ two_written self second }
        ensures read_again { (f : Fields) → result ≡ Ok f → contents_of f ≡ Ok (with_second self (Some second)) }
    {
        let size = first_size(true, self.first.number())?;
        let second_size = size_within(54 - size, second.number())?;
        let payload = self.first.payload()?;
        let second_payload = second.payload()?;
        let area = Area::zeros(54 - size - second_size)
            .behind(second_payload, second_size)
            .behind(u64::from(second.number()), 4)
            .behind(payload, size);
        Ok(self.fields_with(true, area.bits))
    }
}
