// The number of a refusal, for the tests.
use pdu::refusal::Refusal;

// The number of the refusal, or 0. The numbers are what programs see; the tests pin them.
pub(crate) fn number_of<T: Drop>(answer: Result<T, Refusal>) -> u8 {
    match answer {
        Ok(_) => 0,
        Err(refusal) => u8::from(refusal),
    }
}
