// Message 0, the station ID, and message 1, the short name.
ghost use Rattle.std.specs.Prelude.{◌≡◌, ℕ, ◌+◌, ◌^◌, ◌<◌, ◌≤◌};
ghost use Rattle.message.specs.Bits.{field};
ghost use Rattle.message.specs.Results.{in_range};
ghost use Rattle.message.specs.Station.{station_of, station_in_range, station_packed, letters_of, symbol_of, extension_of, short_name_of, short_name_in_range, short_name_packed, extension_bits};

use crate::bits::field_of;
use pdu::refusal::Refusal;

// Ten bits: two letters of five bits each where the code is a country's.
#[derive(Clone, Copy)]
pub struct CountryCode(pub u16);

impl CountryCode {
    // The two letters, if both halves of the code are letters.
    pub fn letters(self) -> Option<(char, char)>
        ensures { result ≡ letters_of self.0 }
    {
        let first = self.0 / 32;
        let second = self.0 % 32;
        if first > 25 || second > 25 {
            return None;
        }
        Some((letter(first), letter(second)))
    }
}

// Letter n of the alphabet, A is 0.
fn letter(n: u16) -> char
    requires { n ≤ 25 }
    ensures { result ≡ 65 + n }
{
    char::from((65 + n) as u8)
}

#[derive(Clone, Copy)]
pub struct StationId {
    pub country: CountryCode,
    // Three reserved bits, kept as they are.
    pub reserved: u8,
    // Nineteen bits.
    pub facility: u32,
}

impl StationId {
    // The station ID in a payload of 32 bits.
    pub(crate) fn parse(payload: u64) -> StationId
        ensures { result ≡ station_of payload }
    {
        StationId {
            country: CountryCode(field_of(payload, 10, 22) as u16),
            reserved: field_of(payload, 3, 19) as u8,
            facility: field_of(payload, 19, 0) as u32,
        }
    }

    pub(crate) fn payload(self) -> Result<u64, Refusal>
        ensures { result ≡ in_range (station_in_range self) (station_packed self) }
    {
        self.is_in_range()
            .then(|| self.packed())
            .ok_or(Refusal::OutOfRange)
    }

    fn packed(self) -> u64
        ensures { result ≡ station_packed self }
    {
        let head = u64::from(self.country.0) * 8 + u64::from(self.reserved);
        head * (1 << 19) + u64::from(self.facility)
    }

    fn is_in_range(&self) -> bool
        ensures { result ≡ station_in_range self.now }
    {
        self.country.0 < 1024 && self.reserved < 8 && self.facility < 1 << 19
    }
}

// A character of a short name, by its code of five bits.
#[derive(Clone, Copy)]
pub struct Character(pub u8);

// The 32 codes; the last one is no character.
const CHARACTERS: [Option<char>; 32] = [
    Some('A'),
    Some('B'),
    Some('C'),
    Some('D'),
    Some('E'),
    Some('F'),
    Some('G'),
    Some('H'),
    Some('I'),
    Some('J'),
    Some('K'),
    Some('L'),
    Some('M'),
    Some('N'),
    Some('O'),
    Some('P'),
    Some('Q'),
    Some('R'),
    Some('S'),
    Some('T'),
    Some('U'),
    Some('V'),
    Some('W'),
    Some('X'),
    Some('Y'),
    Some('Z'),
    Some(' '),
    Some('?'),
    Some('-'),
    Some('*'),
    Some('$'),
    None,
];

impl Character {
    // The character as it is shown.
    pub fn symbol(self) -> Option<char>
        ensures { result ≡ symbol_of self.0 }
    {
        CHARACTERS.get(usize::from(self.0)).copied().flatten()
    }
}

// What a receiver appends to the four characters. No bool: it is a field of two bits.
#[derive(Clone, Copy)]
pub enum CallSignExtension {
    Nothing,
    DashFm,
}

impl TryFrom<u64> for CallSignExtension {
    type Error = Refusal;

    ghost try_from_gives = { λ bits extension. extension ≡ extension_of bits };

    fn try_from(bits: u64) -> Result<CallSignExtension, Refusal> {
        match bits {
            0 => Ok(CallSignExtension::Nothing),
            1 => Ok(CallSignExtension::DashFm),
            _ => Err(Refusal::OutOfRange),
        }
    }
}

impl From<CallSignExtension> for u64 {
    ghost from_gives = { λ extension bits. bits ≡ extension_bits extension };

    fn from(extension: CallSignExtension) -> u64 {
        match extension {
            CallSignExtension::Nothing => 0,
            CallSignExtension::DashFm => 1,
        }
    }
}

#[derive(Clone, Copy)]
pub struct ShortName {
    // From left to right. A tuple: an array's length inside an enum inside a struct is not known
    // to a proof.
    pub characters: (Character, Character, Character, Character),
    pub extension: CallSignExtension,
}

impl ShortName {
    // The short name in a payload of 22 bits.
    pub(crate) fn parse(payload: u64) -> Result<ShortName, Refusal>
        ensures { result ≡ short_name_of payload }
    {
        let extension = CallSignExtension::try_from(field_of(payload, 2, 0))?;
        let name = ShortName {
            characters: (
                Character(field_of(payload, 5, 17) as u8),
                Character(field_of(payload, 5, 12) as u8),
                Character(field_of(payload, 5, 7) as u8),
                Character(field_of(payload, 5, 2) as u8),
            ),
            extension,
        };
        name.is_in_range()
            .then_some(name)
            .ok_or(Refusal::OutOfRange)
    }

    pub(crate) fn payload(self) -> Result<u64, Refusal>
        ensures { result ≡ in_range (short_name_in_range self) (short_name_packed self) }
    {
        self.is_in_range()
            .then(|| self.packed())
            .ok_or(Refusal::OutOfRange)
    }

    fn packed(self) -> u64
        ensures { result ≡ short_name_packed self }
    {
        let (Character(a), Character(b), Character(c), Character(d)) = self.characters;
        let left = u64::from(a) * 32 + u64::from(b);
        let four = (left * 32 + u64::from(c)) * 32 + u64::from(d);
        four * 4 + u64::from(self.extension)
    }

    // Whether no character has the code 31.
    fn is_in_range(&self) -> bool
        ensures { result ≡ short_name_in_range self.now }
    {
        let (Character(a), Character(b), Character(c), Character(d)) = self.characters;
        a < 31 && b < 31 && c < 31 && d < 31
    }
}
