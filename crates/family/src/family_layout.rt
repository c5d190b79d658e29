// What a family tells of its layout. The names differ from Family's, which every layout has too.
ghost use Rattle.std.specs.Prelude.{◌≡◌, ℕ, ◌≤◌};
ghost use Rattle.std.specs.Result.{result_err};
ghost use Rattle.layout.specs.declared.layout.FrameLayout.{FrameLayout};
ghost use Rattle.family.specs.Texts.{record_view};
ghost use Rattle.family.specs.Family.{FamilyLayout};
ghost use Rattle.family.specs.Sound.{SoundLayout};

use crate::text::Record;
use layout::layout::{FrameFields, FrameLayout, Payload};
use pdu::refusal::Refusal;

// What one family of this kind has of its own.
pub trait FamilyLayout {
    // What a record carries beside its text.
    type Head: Copy;

    // Sequence numbers are counted modulo this.
    const MODULUS: u8;

    // How the bytes of a text stand in its frames.
    const FRAME_LAYOUT: FrameLayout;

    ghost MODULUS: { ℕ };

    ghost FRAME_LAYOUT: { FrameLayout };

    ghost layout: { FamilyLayout Self Self.Head };

    // Refuses a record that is not lawful.
    fn refuse_unlawful(&self, record: &Record<Self::Head>) -> Result<(), Refusal>
        ensures { result_err result ≡ layout.refusal self.now (record_view «record».now) };

    // Whether the frame is lawful.
    fn accepts(&self, frame: Payload) -> bool
        ensures { result ≡ layout.lawful self.now frame };

    // What stands in the fields of a frame, lawful or not.
    fn number_in(&self, frame: Payload) -> usize
        ensures { result ≡ layout.number self.now frame };

    fn sequence_in(&self, frame: Payload) -> u8
        ensures { result ≡ layout.sequence self.now frame };

    fn last_in(&self, frame: Payload) -> usize
        ensures { result ≡ layout.last self.now frame };

    fn head_in(&self, frame: Payload) -> Self::Head
        ensures { result ≡ layout.head_of self.now frame };

    // The length of the text that the frames tell.
    fn length_in(&self, frames: &[Payload]) -> usize
        ensures value { result ≡ layout.length_of self.now frames.now }
        ensures short { result ≤ 381 };

    // The fields of the record's frames under a sequence number.
    fn fields(&self, record: &Record<Self::Head>, sequence: u8) -> FrameFields
        ensures { result ≡ layout.fields self.now (record_view «record».now) sequence };

    ghost modulus_is: { layout.modulus ≡ MODULUS };

    ghost frame_layout_is: { layout.frame_layout ≡ FRAME_LAYOUT };

    ghost sound: { SoundLayout layout };
}
