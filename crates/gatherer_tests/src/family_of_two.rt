// The family of two frames, by its meaning.
ghost use Rattle.std.specs.Prelude.{◌≡◌};
ghost use Rattle.gatherer_tests.specs.Two.{is_cut, meaning_of_two};
ghost use Rattle.gatherer_tests.specs.LawsOfTwo;

use crate::two::{Two, frame_of};
use family::family::{Family, Payload};
use family::text::{Record, Text};
use pdu::refusal::Refusal;

impl Family for Two {
    type Head = bool;

    const MODULUS: u8 = 4;

    ghost meaning = { meaning_of_two };

    ghost keeps = { LawsOfTwo.keeps };

    fn sequence_numbers(&self) -> u8 {
        Self::MODULUS
    }

    // A text that is not one byte is refused, and then a byte 0.
    fn require_lawful(&self, record: &Record<bool>) -> Result<(), Refusal> {
        match record.text.as_slice() {
            [0] => Err(Refusal::TextByte),
            [_] => Ok(()),
            _ => Err(Refusal::TextLength),
        }
    }

    fn frame_count(&self, record: &Record<bool>) -> Result<usize, Refusal> {
        self.require_lawful(record)?;
        Ok(2)
    }

    fn frame(&self, record: &Record<bool>, sequence: u8, i: usize) -> Result<Payload, Refusal> {
        self.require_lawful(record)?;
        if sequence >= Self::MODULUS || i >= 2 {
            return Err(Refusal::OutOfRange);
        }
        let byte = if i == 0 {
            u8::from(record.head)
        } else {
            record.text.as_slice()[0]
        };
        Ok(frame_of(sequence, i as u8, byte))
    }

    fn is_lawful(&self, frame: Payload) -> bool {
        frame < 2048
    }

    fn number(&self, frame: Payload) -> Result<usize, Refusal> {
        if self.is_lawful(frame) {
            Ok((frame / 256 % 2) as usize)
        } else {
            Err(Refusal::UnlawfulFrame)
        }
    }

    fn sequence(&self, frame: Payload) -> Result<u8, Refusal> {
        if self.is_lawful(frame) {
            Ok((frame / 512) as u8)
        } else {
            Err(Refusal::UnlawfulFrame)
        }
    }

    fn last_number(&self, frame: Payload) -> Result<usize, Refusal> {
        if self.is_lawful(frame) && frame / 256 % 2 == 0 {
            Ok(1)
        } else {
            Err(Refusal::UnlawfulFrame)
        }
    }

    fn join(&self, frames: &[Payload]) -> Option<Record<bool>> {
        let [first, second] = *frames else {
            return None;
        };
        if !are_a_cut(first, second) {
            return None;
        }
        let text = Text::new(&[(second % 256) as u8]).ok()?;
        Some(Record {
            head: first % 256 == 1,
            text,
        })
    }
}

// Whether two frames are a cut.
fn are_a_cut(first: Payload, second: Payload) -> bool
    ensures { result ≡ is_cut first second }
{
    first < 2048
        && first / 256 % 2 == 0
        && first % 256 < 2
        && second / 256 == first / 256 + 1
        && second % 256 != 0
}
