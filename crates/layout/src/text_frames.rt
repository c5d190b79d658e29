// A text that is read from its frames.
ghost use Rattle.std.specs.Prelude.{◌≡◌, ◌<◌, ◌≤◌, length};
ghost use Rattle.layout.specs.Frames.{byte_of, byte_at, text_in, FitLayout};

use crate::frames::frame_or_zero;
use crate::layout::{FrameLayout, Payload};

// Frames that hold a text in a layout.
#[derive(Clone, Copy)]
pub struct TextFrames<'a> {
    pub layout: FrameLayout,
    pub frames: &'a [Payload],
    ghost fits: { FitLayout layout },
}

// Byte j of the so many bytes that stand lowest in a number.
fn byte_of(byte_bits: u32, count: usize, j: usize, packed: u64) -> u8
    requires { (byte_bits ≤ 8) × ((count ≤ 7) × (j < count)) }
    ensures { result ≡ byte_of byte_bits count j packed }
{
    let behind = byte_bits * (count - 1 - j) as u32;
    ((packed >> behind) % (1 << byte_bits)) as u8
}

impl<'a> TextFrames<'a> {
    // Byte j of the text; an absent frame counts as zero.
    pub fn byte_at(&self, j: usize) -> u8
        ensures { result ≡ byte_at self.now.layout self.now.frames.now j }
    {
        let layout = self.layout;
        if j < layout.first_bytes {
            let packed = frame_or_zero(self.frames, 0) >> layout.trailing_bits;
            byte_of(layout.byte_bits, layout.first_bytes, j, packed)
        } else {
            let later = j - layout.first_bytes;
            let frame = frame_or_zero(self.frames, 1 + later / layout.later_bytes);
            byte_of(
                layout.byte_bits,
                layout.later_bytes,
                later % layout.later_bytes,
                frame >> layout.trailing_bits,
            )
        }
    }

    // Fills a buffer with the first bytes of the text.
    pub fn read_text(&self, text: &mut [u8])
        ensures { text.new ≡ text_in self.now.layout self.now.frames.now (length text.old) }
    {
        for (j, byte) in text.iter_mut().enumerate() {
            *byte = self.byte_at(j);
        }
    }
}
