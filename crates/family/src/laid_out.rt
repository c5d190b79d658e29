// Family, implemented for every layout.
ghost use Rattle.std.specs.Prelude.{◌≡◌, ◌<◌, ◌≤◌, None, if◌then◌else◌, Ok, Err};
ghost use Rattle.layout.specs.Frames.{text_in};
ghost use Rattle.pdu.specs.declared.refusal.Refusal.TheVariants.{UnlawfulFrame};
ghost use Rattle.family.specs.Texts.{bytes_of, record_view};
ghost use Rattle.family.specs.Family.{meaning_of, held_in};
ghost use Rattle.family.specs.Sound.{keeps};

use crate::family::Family;
use crate::family_layout::FamilyLayout;
use crate::refusing::require;
use crate::text::{Record, Text};
use layout::cut::Cut;
use layout::frames::frame_or_zero;
use layout::layout::{FrameLayout, Payload};
use layout::text_frames::TextFrames;
use pdu::refusal::Refusal;

// The first bytes of the text in the frames.
fn text_in(frames: &TextFrames, length: usize) -> Text
    requires { length ≤ 381 }
    ensures { bytes_of result ≡ text_in frames.now.layout frames.now.frames.now length }
{
    let mut bytes = [0; 381];
    frames.read_text(&mut bytes[0..length]);
    Text { bytes, len: length }
}

// The bytes of a text that one frame holds, with the zeros behind the text's end.
pub fn bytes_held<L: FamilyLayout>(family: &L, frame: Payload) -> Text
    ensures { bytes_of result ≡ held_in L.layout family.now frame }
{
    let layout = L::FRAME_LAYOUT;
    let count = if family.number_in(frame) == 0 {
        layout.first_bytes
    } else {
        layout.later_bytes
    };
    // Alone, and so as a frame 0 that holds so many.
    let alone = TextFrames {
        layout: FrameLayout {
            first_bytes: count,
            ..layout
        },
        frames: &[frame],
    };
    text_in(&alone, count)
}

// A lawful record, ready to be cut under a sequence number.
fn cut<'a, L: FamilyLayout>(family: &L, record: &'a Record<L::Head>, sequence: u8) -> Cut<'a>
    requires lawful { L.layout.refusal family.now (record_view «record».now) ≡ None }
    requires known { sequence < L.layout.modulus }
    ensures layout { result.layout ≡ L.layout.frame_layout }
    ensures fields { result.fields ≡ L.layout.fields family.now (record_view «record».now) sequence }
    ensures text { result.text.now ≡ bytes_of «record».now.text }
{
    Cut {
        layout: L::FRAME_LAYOUT,
        fields: family.fields(record, sequence),
        text: record.text.as_slice(),
    }
}

// Refuses an unlawful frame.
fn require_lawful_frame<L: FamilyLayout>(family: &L, frame: Payload) -> Result<(), Refusal>
    ensures { result ≡ (if L.layout.lawful family.now frame then Ok (tt {0}) else Err UnlawfulFrame) }
{
    require(family.accepts(frame), Refusal::UnlawfulFrame)
}

impl<L: FamilyLayout> Family for L {
    type Head = L::Head;

    const MODULUS: u8 = L::MODULUS;

    ghost meaning = { meaning_of L.layout };

    ghost keeps = { keeps L.layout L.sound };

    fn sequence_numbers(&self) -> u8 {
        L::MODULUS
    }

    fn require_lawful(&self, record: &Record<L::Head>) -> Result<(), Refusal> {
        self.refuse_unlawful(record)
    }

    fn frame_count(&self, record: &Record<L::Head>) -> Result<usize, Refusal> {
        self.require_lawful(record)?;
        Ok(L::FRAME_LAYOUT.frame_count(record.text.len))
    }

    fn frame(&self, record: &Record<L::Head>, sequence: u8, i: usize) -> Result<Payload, Refusal> {
        let count = self.frame_count(record)?;
        if sequence >= L::MODULUS || i >= count {
            return Err(Refusal::OutOfRange);
        }
        Ok(cut(self, record, sequence).frame(i))
    }

    fn is_lawful(&self, frame: Payload) -> bool {
        self.accepts(frame)
    }

    fn number(&self, frame: Payload) -> Result<usize, Refusal> {
        require_lawful_frame(self, frame)?;
        Ok(self.number_in(frame))
    }

    fn sequence(&self, frame: Payload) -> Result<u8, Refusal> {
        require_lawful_frame(self, frame)?;
        Ok(self.sequence_in(frame))
    }

    fn last_number(&self, frame: Payload) -> Result<usize, Refusal> {
        require_lawful_frame(self, frame)?;
        if self.number_in(frame) != 0 {
            return Err(Refusal::UnlawfulFrame);
        }
        Ok(self.last_in(frame))
    }

    fn join(&self, frames: &[Payload]) -> Option<Record<L::Head>> {
        let first = frame_or_zero(frames, 0);
        let held = TextFrames {
            layout: L::FRAME_LAYOUT,
            frames,
        };
        let record = Record {
            head: self.head_in(first),
            text: text_in(&held, self.length_in(frames)),
        };
        self.require_lawful(&record).ok()?;
        let expected = cut(self, &record, self.sequence_in(first));
        expected.has_frames(frames).then_some(record)
    }
}
