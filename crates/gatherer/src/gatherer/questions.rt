// The questions to a gatherer, which alter nothing.
ghost use Rattle.std.specs.Prelude.{◌≡◌};
ghost use Rattle.gatherer.specs.Series.{missing_due};
ghost use Rattle.gatherer.specs.Due.{fresh_due, copied_length, copied_to};
ghost use Rattle.gatherer.specs.Agrees.{InEveryHistory};
ghost use Rattle.gatherer.specs.Promises.{HeadShown, TextShown};

use crate::gatherer::Gatherer;
use family::family::Family;
use pdu::refusal::Refusal;

impl<F: Family> Gatherer<F> {
    // The family, for a caller that asks about a frame before it offers it.
    pub fn family(&self) -> &F
        ensures { result.now ≡ self.now.family }
    {
        &self.family
    }

    // The head of the record shown; refused while none is.
    pub fn shown_head(&self) -> Result<F::Head, Refusal>
        ensures { InEveryHistory F.Family.meaning self.now (λ s h. HeadShown F.Family.meaning s h result) }
    {
        let record = self.shown.as_ref().ok_or(Refusal::NothingThere)?;
        Ok(record.head)
    }

    // Copies the text of the record shown to the front of the buffer, and gives its length.
    // Refused while none is shown, then where the buffer is too short; the buffer is then as found.
    // Into the caller's buffer: a device has fixed memory, and goes on with the record shown.
    pub fn copy_text(&self, buffer: &mut [u8]) -> Result<usize, Refusal>
        ensures { InEveryHistory F.Family.meaning self.now (λ s h. TextShown F.Family.meaning s h buffer.old result buffer.new) }
    {
        let record = self.shown.as_ref().ok_or(Refusal::NothingThere)?;
        copy_to_front(record.text.as_slice(), buffer)
    }

    // How often a record was newly shown since the opening or the last forget, up to the largest u32.
    pub fn fresh_count(&self) -> u32
        ensures { InEveryHistory F.Family.meaning self.now (λ s h. result ≡ fresh_due F.Family.meaning s h) }
    {
        self.fresh
    }

    // The sum of 2^i over the missing frames i, up to the last number; refused while frame 0 is missing.
    pub fn missing(&self) -> Result<u64, Refusal>
        ensures { InEveryHistory F.Family.meaning self.now (λ s h. result ≡ missing_due F.Family.meaning s h) }
    {
        let count = self.frames_told().ok_or(Refusal::NothingThere)?;
        Ok(self.table.empty_sum(count))
    }
}

// Copies a text to the front of a buffer, if there is room for it.
fn copy_to_front(text: &[u8], buffer: &mut [u8]) -> Result<usize, Refusal>
    ensures length { result ≡ copied_length text.now buffer.old }
    ensures bytes { buffer.new ≡ copied_to text.now buffer.old }
{
    if text.len() > buffer.len() {
        return Err(Refusal::BufferShort);
    }
    buffer[0..text.len()].copy_from_slice(text);
    Ok(text.len())
}
