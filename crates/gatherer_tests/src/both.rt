// A record that is heard whole, whatever the gatherer held before.
ghost use Rattle.std.specs.Prelude.{◌≡◌, Bool, Ok};
ghost use Rattle.gatherer.specs.Agrees.{InEveryHistory};
ghost use Rattle.gatherer_tests.specs.Two.{meaning_of_two};

use crate::two::Two;
use family::family::Family;
use family::text::Record;
use gatherer::gatherer::Gatherer;
use pdu::refusal::Refusal;

// Offers both frames of a record, the second one first, and asks for the head.
pub fn head_after_both(
    gatherer: &mut Gatherer<Two>,
    record: &Record<bool>,
    sequence: u8,
) -> Result<bool, Refusal>
    ensures { InEveryHistory meaning_of_two gatherer.old (λ s h. (head : Bool) → result ≡ Ok head → head ≡ «record».now.head) }
{
    let first = Two.frame(record, sequence, 0)?;
    let second = Two.frame(record, sequence, 1)?;
    let _ = gatherer.offer(second)?;
    let _ = gatherer.offer(first)?;
    gatherer.shown_head()
}
