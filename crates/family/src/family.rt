// A frame family, by its meaning.
ghost use Rattle.std.specs.Prelude.{◌≡◌};
ghost use Rattle.std.specs.Result.{result_err};
ghost use Rattle.family.specs.Meaning.{Meaning, Laws, count_due, frame_due, number_due, sequence_due, last_due};
ghost use Rattle.family.specs.Texts.{record_view, join_view};

use crate::text::Record;
pub use layout::layout::Payload;
use pdu::refusal::Refusal;

// Every call answers from the meaning alone and alters nothing.
pub trait Family {
    // What a record carries beside its text.
    type Head: Copy;

    // Sequence numbers are counted modulo this.
    const MODULUS: u8;

    ghost meaning: { Meaning Self Self.Head };

    // How many sequence numbers there are: the modulus.
    fn sequence_numbers(&self) -> u8
        ensures { result ≡ meaning.modulus };

    // Refuses a record that is not lawful.
    fn require_lawful(&self, record: &Record<Self::Head>) -> Result<(), Refusal>
        ensures { result_err result ≡ meaning.refusal self.now (record_view «record».now) };

    // How many frames the record has.
    fn frame_count(&self, record: &Record<Self::Head>) -> Result<usize, Refusal>
        ensures { result ≡ count_due meaning self.now (record_view «record».now) };

    // Frame i of the record's cut under a sequence number.
    fn frame(&self, record: &Record<Self::Head>, sequence: u8, i: usize) -> Result<Payload, Refusal>
        ensures { result ≡ frame_due meaning self.now (record_view «record».now) sequence i };

    fn is_lawful(&self, frame: Payload) -> bool
        ensures { result ≡ meaning.lawful self.now frame };

    // The frame's own number.
    fn number(&self, frame: Payload) -> Result<usize, Refusal>
        ensures { result ≡ number_due meaning self.now frame };

    fn sequence(&self, frame: Payload) -> Result<u8, Refusal>
        ensures { result ≡ sequence_due meaning self.now frame };

    // The number of the last frame, which frame 0 tells.
    fn last_number(&self, frame: Payload) -> Result<usize, Refusal>
        ensures { result ≡ last_due meaning self.now frame };

    // The record whose cut these frames are.
    fn join(&self, frames: &[Payload]) -> Option<Record<Self::Head>>
        ensures { join_view result ≡ meaning.joined self.now frames.now };

    ghost keeps: { Laws meaning };
}
