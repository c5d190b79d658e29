// A family of two frames: frame 0 carries a flag as the head, and frame 1 the one byte of the text.
ghost use Rattle.std.specs.Prelude.{◌≡◌};
ghost use Rattle.gatherer_tests.specs.Frames.{frame_of};

use family::family::Payload;

#[derive(Clone, Copy)]
pub struct Two;

// A frame: its sequence number, its number and a byte.
pub fn frame_of(sequence: u8, number: u8, byte: u8) -> Payload
    ensures { result ≡ frame_of sequence number byte }
{
    (u64::from(sequence) * 2 + u64::from(number)) * 256 + u64::from(byte)
}
