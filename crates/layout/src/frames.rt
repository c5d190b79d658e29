// Frames of a text: one of them, and how many there are.
ghost use Rattle.std.specs.Prelude.{◌≡◌, ◌-◌, ◌^◌, ◌<◌, slice_index};
ghost use Rattle.layout.specs.Frames.{frame_count, FitLayout};

use crate::layout::{FrameLayout, Payload};

// Frame i, or zero where there is none.
pub fn frame_or_zero(frames: &[Payload], i: usize) -> Payload
    ensures { result ≡ slice_index frames.now i }
{
    frames.get(i).copied().unwrap_or(0)
}

// Only the families call these, each with a layout that fits: hence the conditions.
impl FrameLayout {
    // How many frames hold so many bytes.
    pub fn frame_count(self, length: usize) -> usize
        requires fits { FitLayout self }
        requires near { length < 2 ^ 32 }
        ensures { result ≡ frame_count self length }
    {
        let later = length.saturating_sub(self.first_bytes);
        1 + (later + (self.later_bytes - 1)) / self.later_bytes
    }

    // The number of the last frame of so many bytes.
    pub fn last_number(self, length: usize) -> usize
        requires fits { FitLayout self }
        requires near { length < 2 ^ 32 }
        ensures { result ≡ frame_count self length - 1 }
    {
        self.frame_count(length) - 1
    }
}
