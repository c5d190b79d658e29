// The check of a PDU: the remainder of its polynomial.
ghost use Rattle.std.specs.Prelude.{◌≡◌, ◌<◌};
ghost use Rattle.pdu.specs.Check.{coefficient, coefficients, check_of, generator};
ghost use Rattle.pdu.specs.Division.{OnlyRemainder};

use crate::divisor::Divisor;
use crate::pdu::Pdu;

// X^12 + X^11 + X^3 + X + 1
const DIVISOR: Divisor = Divisor {
    degree: 12,
    generator: 0x80B,
};

impl Pdu {
    // The coefficient of X^i: bit i, counted from the highest bit of byte 0.
    fn coefficient(&self, i: usize) -> u8
        requires { i < 68 }
        ensures value { result ≡ coefficient self.now.bytes i }
        ensures small { result < 2 }
    {
        (self.bytes[i / 8] >> (7 - i % 8)) % 2
    }

    // The check that the PDU should carry, whatever its check bits are.
    pub fn check(self) -> u16
        ensures value { result ≡ check_of self.bytes }
        ensures law { OnlyRemainder 12 generator (coefficients self.bytes) result }
    {
        let mut remainder: u16 = 0;
        // Bits 68 to 79 count as zero, and leading zeros leave no remainder.
        // i is a power of X, highest first.
        for i in (0..68usize).rev() {
            remainder = DIVISOR.bring_down(remainder, self.coefficient(i));
        }
        remainder
    }
}
