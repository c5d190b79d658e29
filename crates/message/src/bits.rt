// Fields of a payload: some bits in the middle, and signed numbers.
ghost use Rattle.std.specs.Prelude.{◌≡◌, ℕ, ◌*◌, ◌^◌, ◌<◌, true};
ghost use Rattle.message.specs.Bits.{field, signed, unsigned, fits_signed};

// The field of some bits that are followed by others.
pub(crate) fn field_of(payload: u64, many: u32, following: u32) -> u64
    requires { (many < 64) × (following < 64) }
    ensures value { result ≡ field many following payload }
    ensures small { result < 2 ^ many }
{
    (payload >> following) % (1 << many)
}

// Fields that hold signed numbers in two's complement, of which half are below zero.
// No casts of std: there are fields of 8, 11 and 22 bits.
#[derive(Clone, Copy)]
pub(crate) struct Signed {
    pub(crate) half: u32,
    ghost small: { half < 2 ^ 30 },
}

impl Signed {
    // The number that a field holds.
    pub(crate) fn number_of(self, n: u64) -> i32
        requires { n < 2 * self.half }
        ensures { result ≡ signed self.half n }
    {
        if n < u64::from(self.half) {
            n as i32
        } else {
            n as i32 - 2 * self.half as i32
        }
    }

    // Whether a number fits the field.
    pub(crate) fn fits(self, x: i32) -> bool
        ensures { result ≡ fits_signed self.half x }
    {
        -(self.half as i32) <= x && x < self.half as i32
    }

    // The field that holds a number.
    pub(crate) fn field_with(self, x: i32) -> u64
        requires { fits_signed self.half x ≡ true }
        ensures value { result ≡ unsigned self.half x }
        ensures small { result < 2 * self.half }
    {
        if x < 0 {
            (x + 2 * self.half as i32) as u64
        } else {
            x as u64
        }
    }
}
