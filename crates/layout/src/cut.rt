// A text that is cut into frames.
ghost use Rattle.std.specs.Prelude.{◌≡◌, ℕ, ◌+◌, ◌*◌, ◌^◌, ◌<◌, ◌≤◌};
ghost use Rattle.std.specs.Str.{bytes_eq};
ghost use Rattle.layout.specs.Frames.{with_bytes, place_of, bytes_in, leading_of, frame_of, cut_of, Cuttable};

use crate::layout::{FrameFields, FrameLayout, Payload};

// A text between the fields of its frames.
#[derive(Clone, Copy)]
pub struct Cut<'a> {
    pub layout: FrameLayout,
    pub fields: FrameFields,
    pub text: &'a [u8],
    ghost cuttable: { Cuttable layout fields text.now },
}

// Each asks i < 64, and no type holds it: to the callers the number of a frame is any usize.
impl<'a> Cut<'a> {
    // The fields before the bytes of frame i.
    fn leading(&self, i: usize) -> u64
        requires { i < 64 }
        ensures { result ≡ leading_of self.now.fields i }
    {
        if i == 0 {
            self.fields.first_leading
        } else {
            self.fields.later_leading + i as u64 * self.fields.number_unit
        }
    }

    // A number, followed by so many bytes of the text from a place on.
    fn with_bytes(&self, leading: u64, place: usize, count: usize) -> u64
        requires room { (leading + 1) * 2 ^ (self.now.layout.byte_bits * count) ≤ 2 ^ 64 }
        requires near { place + count < 2 ^ 32 }
        ensures { result ≡ with_bytes leading self.now.layout.byte_bits self.now.text.now place count }
    {
        let mut packed = leading;
        // By index: past the text's end the bytes are zero.
        for i in 0..count {
            let byte = self.text.get(place + i).copied().unwrap_or(0);
            packed = packed * (1 << self.layout.byte_bits) + u64::from(byte);
        }
        packed
    }

    // Frame i without its trailing fields.
    fn before_trailing(&self, i: usize) -> u64
        requires near { i < 64 }
        ensures { result ≡ with_bytes (leading_of self.now.fields i) self.now.layout.byte_bits self.now.text.now (place_of self.now.layout i) (bytes_in self.now.layout i) }
    {
        let leading = self.leading(i);
        let layout = self.layout;
        if i == 0 {
            self.with_bytes(leading, 0, layout.first_bytes)
        } else {
            let place = layout.first_bytes + (i - 1) * layout.later_bytes;
            self.with_bytes(leading, place, layout.later_bytes)
        }
    }

    // Frame i.
    pub fn frame(&self, i: usize) -> Payload
        requires near { i < 64 }
        ensures { result ≡ frame_of self.now.layout self.now.fields self.now.text.now i }
    {
        self.before_trailing(i) * (1 << self.layout.trailing_bits) + self.fields.trailing
    }

    // Whether the text is cut into these frames.
    pub fn has_frames(&self, frames: &[Payload]) -> bool
        ensures { result ≡ bytes_eq (cut_of self.now.layout self.now.fields self.now.text.now) frames.now }
    {
        if frames.len() != self.layout.frame_count(self.text.len()) {
            return false;
        }
        frames
            .iter()
            .enumerate()
            .all(|(i, frame)| self.frame(i) == *frame)
    }
}
