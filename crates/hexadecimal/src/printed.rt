// Bytes printed for a person.
ghost use Rattle.std.specs.Prelude.{◌≡◌, Some};
ghost use Rattle.hexadecimal.specs.Printed.{digits_of, is_plain, shown, quoted};

use std::fmt;

// Two digits for each byte.
#[derive(Clone, Copy)]
pub struct Digits<'a>(pub &'a [u8]);

impl fmt::Display for Digits<'_> {
    ghost output = { λ d. Some (digits_of d.0.now) };

    fn fmt<W: fmt::Write>(&self, f: &mut fmt::Formatter<W>) -> fmt::Result {
        for byte in self.0 {
            let byte = *byte;
            write!(f, "{byte:02X}")?;
        }
        Ok(())
    }
}

// In quotes: printable ASCII as it is, any other byte as \x and two digits; quotation marks and backslashes so too, if ESCAPE_MARKS is set.
#[derive(Clone, Copy)]
pub struct Quoted<'a, const ESCAPE_MARKS: bool>(pub &'a [u8]);

impl<const ESCAPE_MARKS: bool> fmt::Display for Quoted<'_, ESCAPE_MARKS> {
    ghost output = { λ q. Some (quoted ESCAPE_MARKS q.0.now) };

    fn fmt<W: fmt::Write>(&self, f: &mut fmt::Formatter<W>) -> fmt::Result {
        write!(f, "\"")?;
        for byte in self.0 {
            let byte = QuotedByte::<ESCAPE_MARKS>(*byte);
            write!(f, "{byte}")?;
        }
        write!(f, "\"")
    }
}

// One byte between the quotes.
#[derive(Clone, Copy)]
struct QuotedByte<const ESCAPE_MARKS: bool>(u8);

impl<const ESCAPE_MARKS: bool> QuotedByte<ESCAPE_MARKS> {
    // Whether the byte stands as it is.
    fn is_plain(&self) -> bool
        ensures { result ≡ is_plain ESCAPE_MARKS self.now.0 }
    {
        let mark = self.0 == b'"' || self.0 == b'\\';
        (32 <= self.0 && self.0 < 127) && !(ESCAPE_MARKS && mark)
    }
}

impl<const ESCAPE_MARKS: bool> fmt::Display for QuotedByte<ESCAPE_MARKS> {
    ghost output = { λ s. Some (shown ESCAPE_MARKS s.0) };

    fn fmt<W: fmt::Write>(&self, f: &mut fmt::Formatter<W>) -> fmt::Result {
        if self.is_plain() {
            let character = char::from(self.0);
            write!(f, "{character}")
        } else {
            let byte = [self.0];
            let digits = Digits(&byte);
            write!(f, "\\x{digits}")
        }
    }
}
