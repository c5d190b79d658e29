// Bytes spelled by hexadecimal digits: read from a text, and printed.
#![tactic(auto)]

pub mod printed;
#[cfg(test)]
mod tests;
pub mod text;

ghost use Rattle.std.specs.Prelude.{◌≡◌, ◌<◌, IfSome};
ghost use Rattle.hexadecimal.specs.Hexadecimal.{digit_of, reading_of};

// What a character is, behind the upper digit of a byte or behind a whole byte.
#[derive(Clone, Copy, PartialEq, Eq, Debug)]
pub enum Reading {
    Blank,
    UpperDigit(u8),
    Byte(u8),
    NoDigit,
}

// Reads a character; `upper` is the upper digit before it, if the byte is half read.
pub fn read_character(upper: Option<u8>, character: char) -> Reading
    ensures { result ≡ reading_of upper character }
{
    match (digit(character), upper) {
        (Some(lower), Some(upper)) => Reading::Byte(upper % 16 * 16 + lower),
        (Some(upper), None) => Reading::UpperDigit(upper),
        (None, _) if character == ' ' || character == '\t' => Reading::Blank,
        (None, _) => Reading::NoDigit,
    }
}

fn digit(character: char) -> Option<u8>
    ensures value { result ≡ digit_of character }
    ensures small { IfSome result (λ d. d < 16) }
{
    match character {
        '0'..='9' => Some(character as u8 - b'0'),
        'A'..='F' => Some(character as u8 - b'A' + 10),
        'a'..='f' => Some(character as u8 - b'a' + 10),
        _ => None,
    }
}
