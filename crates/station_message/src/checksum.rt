// The checksum of a message's text.
ghost use Rattle.std.specs.Prelude.{◌≡◌, ◌≤◌, length, sum};
ghost use Rattle.family.specs.Texts.{bytes_of};
ghost use Rattle.station_message.specs.Checksum.{checksum_of};

use family::text::Text;

fn total(bytes: &[u8]) -> u32
    requires { length bytes.now ≤ 381 }
    ensures { result ≡ sum bytes.now }
{
    bytes.iter().map(|byte| u32::from(*byte)).sum()
}

// The high and the low byte of the sum without bit 15, added; the lowest seven bits.
pub fn checksum(text: &Text) -> u8
    ensures { result ≡ checksum_of (bytes_of text.now) }
{
    let sum = total(text.as_slice());
    ((sum % 32768 / 256 + sum % 256) % 128) as u8
}
