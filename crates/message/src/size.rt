// The payload sizes.
ghost use Rattle.std.specs.Prelude.{◌≡◌};
ghost use Rattle.message.specs.Message.{size_of};

// In bits, by message number; the reserved numbers have none.
const SIZES: [Option<u8>; 16] = [
    Some(32),
    Some(22),
    Some(58),
    None,
    Some(27),
    Some(58),
    Some(27),
    Some(22),
    Some(58),
    Some(58),
    None,
    None,
    None,
    None,
    None,
    None,
];

// The size in bits of a message's payload. A u8: reserved numbers come here too, and have none.
pub fn payload_size(number: u8) -> Option<u8>
    ensures { result ≡ size_of number }
{
    SIZES.get(usize::from(number)).copied().flatten()
}
