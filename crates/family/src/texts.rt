// Texts made, lent and compared, and records compared.
ghost use Rattle.std.specs.Prelude.{◌≡◌};
ghost use Rattle.std.specs.Str.{bytes_eq};
ghost use Rattle.std.specs.Cmp.{on_equiv, on_per, partial_equiv_from_equiv};
ghost use Rattle.std.specs.Cmp.Lexicographic.{nat_list_eq_equiv};
ghost use Rattle.family.specs.Meaning.{equal_records};
ghost use Rattle.family.specs.Texts.{bytes_of, text_view, text_taken, record_view};

use crate::text::{Record, Text};
use pdu::refusal::Refusal;

impl Text {
    // The text with these bytes; more than 381 are refused. Not TryFrom: arrays and slices are both lent here, and the bytes are copied.
    pub fn new(bytes: &[u8]) -> Result<Text, Refusal>
        ensures { text_view result ≡ text_taken bytes.now }
    {
        if bytes.len() > 381 {
            return Err(Refusal::TextLength);
        }
        let mut copied = [0; 381];
        copied[0..bytes.len()].copy_from_slice(bytes);
        Ok(Text {
            bytes: copied,
            len: bytes.len(),
        })
    }

    pub fn as_slice(&self) -> &[u8]
        ensures { result.now ≡ bytes_of self.now }
    {
        &self.bytes[0..self.len]
    }
}

// Two texts are equal when they are the same bytes.
impl PartialEq for Text {
    ghost eq = { λ a b. bytes_eq (bytes_of a) (bytes_of b) };

    ghost laws = { on_per bytes_of (partial_equiv_from_equiv nat_list_eq_equiv) };

    fn eq(&self, other: &Text) -> bool {
        self.as_slice() == other.as_slice()
    }
}

impl Eq for Text {
    ghost laws = { on_equiv bytes_of nat_list_eq_equiv };
}

impl<H> Record<H> {
    // Whether both records are equal. Not ==: two records with different heads count as equal.
    pub fn equals(&self, other: &Record<H>) -> bool
        ensures { result ≡ equal_records (record_view self.now) (record_view other.now) }
    {
        self.text == other.text
    }
}
