// Long division of polynomials, and of a text whose bits are the coefficients.
ghost use Rattle.std.specs.Prelude.{◌≡◌, ◌+◌, ◌*◌, ◌^◌, ◌<◌, ◌≤◌};
ghost use Rattle.pdu.specs.Division.{lowered, divided, OnlyRemainder};
ghost use Rattle.pdu.specs.Dividend.{bits_of, dividend, text_remainder};

// The polynomial X^degree plus a generator of a lower degree.
#[derive(Clone, Copy)]
pub struct Divisor {
    pub degree: u32,
    pub generator: u16,
    ghost short: { degree ≤ 15 },
    ghost low: { generator < 2 ^ degree },
}

impl Divisor {
    // One step: the remainder so far, followed by one coefficient.
    pub(crate) fn bring_down(self, remainder: u16, coefficient: u8) -> u16
        requires { (remainder < 2 ^ self.degree) × (coefficient < 2) }
        ensures value { result ≡ lowered self.degree (2 ^ self.degree + self.generator) (remainder * 2 + coefficient) }
        ensures small { result < 2 ^ self.degree }
    {
        let longer = remainder * 2 + u16::from(coefficient);
        // One of the two has no X^degree: it is the smaller one. No `if`: a jump costs more.
        longer.min(longer ^ ((1 << self.degree) + self.generator))
    }

    // The remainder so far, followed by the bits of a byte.
    fn bring_down_byte(self, remainder: u16, byte: u8) -> u16
        requires { remainder < 2 ^ self.degree }
        ensures value { result ≡ divided self.degree (2 ^ self.degree + self.generator) remainder (bits_of byte) }
        ensures small { result < 2 ^ self.degree }
    {
        let mut remainder = remainder;
        // k counts the bits of the byte, highest first.
        for k in 0..8u32 {
            remainder = self.bring_down(remainder, (byte >> (7 - k)) % 2);
        }
        remainder
    }

    // The remainder of the bytes followed by as many zeros as the degree.
    pub fn remainder(self, bytes: &[u8]) -> u16
        ensures value { result ≡ text_remainder self.degree self.generator bytes.now }
        ensures law { OnlyRemainder self.degree self.generator (dividend self.degree bytes.now) result }
    {
        let mut remainder = 0;
        for byte in bytes {
            remainder = self.bring_down_byte(remainder, *byte);
        }
        for _zero in 0..self.degree {
            remainder = self.bring_down(remainder, 0);
        }
        remainder
    }
}
