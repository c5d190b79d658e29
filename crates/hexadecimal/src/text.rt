// The bytes that a text spells.
ghost use Rattle.std.specs.Prelude.{◌≡◌, [], ◌⊎◌, None, Ok, Err, IfOk, IfErr};
ghost use Rattle.std.specs.Str.{chars};
ghost use Rattle.hexadecimal.specs.Spelled.{spelled};
ghost use Rattle.hexadecimal.specs.declared.text.TextError.TheVariants.{OutOfMemory};

use crate::{Reading, read_character};
use std::alloc::{AllocError, AllocFailed, Global};
use thiserror::Error;

// Why a text spells no bytes.
#[derive(Clone, Copy, PartialEq, Eq, Debug, Error)]
pub enum TextError {
    // The column counts characters from 1.
    #[error("'{found}' in column {column} is no hexadecimal digit")]
    NoDigit { column: usize, found: char },
    // An odd number of digits: so many.
    #[error("{0} hexadecimal digits do not make whole bytes")]
    OddDigits(usize),
    #[error("{}", AllocError)]
    OutOfMemory,
}

// By hand: clauses name the error.
impl<T: Drop> From<AllocFailed<T>> for TextError {
    ghost from_gives = { λ _ e. e ≡ OutOfMemory };

    fn from(_e: AllocFailed<T>) -> TextError {
        TextError::OutOfMemory
    }
}

// The bytes, two digits each; blanks are passed over.
pub fn bytes_of(alloc: Global, text: &str) -> Result<Vec<u8>, TextError>
    ensures bytes { IfOk result (λ v. spelled 1 [] None (chars text.now) ≡ Ok v.items) }
    ensures refused { IfErr result (λ e. (e ≡ OutOfMemory) ⊎ (spelled 1 [] None (chars text.now) ≡ Err e)) }
{
    let mut bytes = Vec::new(alloc);
    let mut upper = None;
    for (i, character) in text.chars().enumerate() {
        match read_character(upper, character) {
            Reading::Blank => {}
            Reading::UpperDigit(digit) => upper = Some(digit),
            Reading::Byte(byte) => {
                bytes.push(byte)?;
                upper = None;
            }
            Reading::NoDigit => {
                return Err(TextError::NoDigit {
                    column: i + 1,
                    found: character,
                });
            }
        }
    }
    match upper {
        None => Ok(bytes),
        Some(_) => Err(TextError::OddDigits(2 * bytes.len() + 1)),
    }
}
