// What the fading box does to PDUs.
ghost use Rattle.std.specs.Prelude.{◌≡◌};
ghost use Rattle.fading.specs.Fades.{bit_turned, stepped, fade_after, state_after};

use pdu::pdu::Pdu;

#[derive(Clone, Copy)]
pub enum Fade {
    // The PDU is heard once.
    Heard,
    Lost,
    // It is heard twice on the spot.
    Doubled,
    // This bit of it is turned; bit 0 is the highest of byte 0.
    Turned(u8),
}

// The PDU with one bit turned; a bit past the last one turns nothing.
pub fn with_bit_turned(pdu: Pdu, bit: u8) -> Pdu
    ensures { result ≡ record { bytes = bit_turned bit pdu.bytes } }
{
    let mut bytes = pdu.bytes;
    let i = usize::from(bit / 8);
    // Not get_mut: its contract does not tell what the array is after it.
    if i < bytes.len() {
        bytes[i] ^= 128 >> (bit % 8);
    }
    Pdu { bytes }
}

// A fading box that makes the same fades from the same seed.
#[derive(Clone, Copy)]
pub struct FadingBox {
    state: u32,
}

impl FadingBox {
    pub fn new(seed: u32) -> FadingBox
        ensures { result.state ≡ seed }
    {
        FadingBox { state: seed }
    }

    // What happens to the next PDU: of eight equal parts one is lost, one doubled and one turned.
    pub fn next_fade(&mut self) -> Fade
        ensures fade { result ≡ fade_after self.old.state }
        ensures state { self.new.state ≡ state_after self.old.state }
    {
        match self.step() >> 29 {
            0 => Fade::Lost,
            1 => Fade::Doubled,
            2 => Fade::Turned(((self.step() / 65_536) % 80) as u8),
            _ => Fade::Heard,
        }
    }

    // One step of a linear congruential generator.
    fn step(&mut self) -> u32
        ensures value { result ≡ stepped self.old.state }
        ensures state { self.new.state ≡ stepped self.old.state }
    {
        self.state = self
            .state
            .wrapping_mul(1_664_525)
            .wrapping_add(1_013_904_223);
        self.state
    }
}
