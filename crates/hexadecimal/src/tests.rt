// Texts read, bytes printed, and the words of each error.
use crate::printed::Digits;
use crate::text::{TextError, bytes_of};
use std::test::Fail;

#[test]
fn bytes_of_a_text(rt: HostRuntime) -> Result<(), Fail> {
    let bytes = bytes_of(rt.alloc(), "00 4f\tA 0")?;
    assert_eq!(rt; bytes.as_slice(), [0x00, 0x4F, 0xA0].as_slice());
    assert_eq!(rt; bytes_of(rt.alloc(), " ")?.len(), 0);
    Ok(())
}

#[test]
fn texts_that_spell_none(rt: HostRuntime) -> Result<(), Fail> {
    let error = bytes_of(rt.alloc(), "é")
        .err()
        .unwrap_or(TextError::OutOfMemory);
    assert_eq!(rt;
        error,
        TextError::NoDigit {
            column: 1,
            found: 'é'
        }
    );
    let words = format!(in rt.alloc(); "{error}")?;
    assert_eq!(rt; words.as_str(), "'é' in column 1 is no hexadecimal digit");
    let error = bytes_of(rt.alloc(), "01 2")
        .err()
        .unwrap_or(TextError::OutOfMemory);
    assert_eq!(rt; error, TextError::OddDigits(3));
    let words = format!(in rt.alloc(); "{error}")?;
    assert_eq!(rt;
        words.as_str(),
        "3 hexadecimal digits do not make whole bytes"
    );
    Ok(())
}

#[test]
fn digits_of_bytes(rt: HostRuntime) -> Result<(), Fail> {
    let digits = Digits(&[0x00, 0x4F, 0xA0]);
    let text = format!(in rt.alloc(); "{digits}")?;
    assert_eq!(rt; text.as_str(), "004FA0");
    Ok(())
}
