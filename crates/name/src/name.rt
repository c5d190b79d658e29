// The frames of a station name. A frame tells the last number in 3 bits, its own number in 3, seven characters of 7 bits, and its sequence number in 3.
ghost use Rattle.std.specs.Prelude.{◌≡◌, ◌≤◌, refl};
ghost use Rattle.layout.specs.Frames.{byte_at};
ghost use Rattle.name.specs.Name.{frame_layout, name_layout, characters, until_zero, number_in, last_in};
ghost use Rattle.name.specs.Sound.{sound};

use family::family_layout::FamilyLayout;
use family::text::Record;
use layout::layout::{FrameFields, FrameLayout, Payload};
use layout::text_frames::TextFrames;
use pdu::refusal::Refusal;

#[derive(Clone, Copy)]
pub struct Name;

// The longest name.
const LONGEST: usize = 56;

// Whether each byte is 1 to 127.
fn spells_name(text: &[u8]) -> bool
    ensures { result ≡ characters text.now }
{
    text.iter().all(|byte| matches!(byte, 1..=127))
}

impl FamilyLayout for Name {
    type Head = ();

    const MODULUS: u8 = 8;

    const FRAME_LAYOUT: FrameLayout = FrameLayout {
        byte_bits: 7,
        trailing_bits: 3,
        first_bytes: 7,
        later_bytes: 7,
    };

    ghost MODULUS = { 8 };

    ghost FRAME_LAYOUT = { frame_layout };

    ghost layout = { name_layout };

    ghost modulus_is = { refl };

    ghost frame_layout_is = { refl };

    ghost sound = { sound };

    fn refuse_unlawful(&self, record: &Record<()>) -> Result<(), Refusal> {
        if !(1..=LONGEST).contains(&record.text.len) {
            return Err(Refusal::TextLength);
        }
        if !spells_name(record.text.as_slice()) {
            return Err(Refusal::TextByte);
        }
        Ok(())
    }

    fn accepts(&self, frame: Payload) -> bool {
        frame < 1 << 58 && self.number_in(frame) <= self.last_in(frame)
    }

    fn number_in(&self, frame: Payload) -> usize {
        ((frame >> 52) % 8) as usize
    }

    fn sequence_in(&self, frame: Payload) -> u8 {
        (frame % 8) as u8
    }

    fn last_in(&self, frame: Payload) -> usize {
        ((frame >> 55) % 8) as usize
    }

    fn head_in(&self, _frame: Payload) {}

    // How many characters stand before the first zero.
    fn length_in(&self, frames: &[Payload]) -> usize {
        let held = TextFrames {
            layout: Self::FRAME_LAYOUT,
            frames,
        };
        (0..LONGEST)
            .find(|j| held.byte_at(*j) == 0)
            .unwrap_or(LONGEST)
    }

    fn fields(&self, record: &Record<()>, sequence: u8) -> FrameFields {
        let last = Self::FRAME_LAYOUT.last_number(record.text.len) as u64;
        FrameFields {
            first_leading: last * 8,
            later_leading: last * 8,
            number_unit: 1,
            trailing: u64::from(sequence),
        }
    }
}
