// Why something is refused: one list for the whole product.
ghost use Rattle.std.specs.Prelude.{◌≡◌, Some};
ghost use Rattle.pdu.specs.Refusals.{number_of, phrase_of};

use std::fmt;

#[derive(Clone, Copy, PartialEq, Eq, Debug)]
pub enum Refusal {
    NotTenBytes = 11,
    CheckDiffers = 12,
    TypeNotZero = 13,
    ReservedMessage = 14,
    PayloadsTooLong = 15,
    OutOfRange = 16,
    LeftoverBitSet = 17,
    UnlawfulFrame = 18,
    TextLength = 19,
    TextByte = 20,
    BufferShort = 21,
    NothingThere = 22,
    HeadSettingOrPlace = 23,
    RecordingVersion = 24,
    RecordingLength = 25,
}

// The number under which a refusal is known to programs.
impl From<Refusal> for u8 {
    ghost from_gives = { λ refusal number. number ≡ number_of refusal };

    fn from(refusal: Refusal) -> u8 {
        refusal as u8
    }
}

impl Refusal {
    // What was wrong, for a person.
    pub fn phrase(self) -> &'static str
        ensures { result.now ≡ phrase_of self }
    {
        match self {
            Refusal::NotTenBytes => "a PDU has ten bytes",
            Refusal::CheckDiffers => "the check differs",
            Refusal::TypeNotZero => "the type bit is 1",
            Refusal::ReservedMessage => "the message number is reserved",
            Refusal::PayloadsTooLong => "the payloads exceed 54 bits",
            Refusal::OutOfRange => "a field is out of range",
            Refusal::LeftoverBitSet => "a leftover bit is set",
            Refusal::UnlawfulFrame => "the frame breaks its layout",
            Refusal::TextLength => "the text's length is not allowed",
            Refusal::TextByte => "the text has a byte that is not allowed",
            Refusal::BufferShort => "the buffer is too short",
            Refusal::NothingThere => "there is nothing to show",
            Refusal::HeadSettingOrPlace => "the head, the setting or the place is not allowed",
            Refusal::RecordingVersion => "the recording's version is missing or unknown",
            Refusal::RecordingLength => "the recording's count or length is wrong",
        }
    }
}

// The number, then the words, as "12: the check differs". No derive: phrase promises the words.
impl fmt::Display for Refusal {
    fn fmt<W: fmt::Write>(&self, f: &mut fmt::Formatter<W>) -> fmt::Result {
        let number = u8::from(*self);
        let phrase = self.phrase();
        write!(f, "{number}: {phrase}")
    }
}
