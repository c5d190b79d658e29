// Numbers and bytes from the words of the command line.
use anyhow::bail;
use hexadecimal::text::{TextError, bytes_of};
use std::alloc::Global;

// A number from 0 to 255.
pub(crate) fn number_in(word: &str, what: &str) -> anyhow::Result<u8> {
    let Ok(number) = word.parse::<u8>() else {
        bail!("the {what} '{word}' is no number from 0 to 255");
    };
    Ok(number)
}

// The bytes of a word, or those that its hexadecimal digits spell.
pub(crate) fn bytes_in(heap: Global, word: &str) -> anyhow::Result<Vec<u8>> {
    match word.strip_prefix("hex:") {
        None => Ok(word.as_bytes().to_vec(heap)?),
        Some(digits) => spelled(heap, digits),
    }
}

fn spelled(heap: Global, digits: &str) -> anyhow::Result<Vec<u8>> {
    match bytes_of(heap, digits) {
        Ok(bytes) => Ok(bytes),
        Err(TextError::NoDigit { .. }) => {
            bail!("the text has a character that is no hexadecimal digit")
        }
        Err(TextError::OddDigits(_)) => bail!("the text has an odd number of hexadecimal digits"),
        Err(TextError::OutOfMemory) => Err(TextError::OutOfMemory.into()),
    }
}
