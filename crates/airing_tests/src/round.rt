// As many draws as a record has frames.
ghost use Rattle.std.specs.Prelude.{◌≡◌, ℕ, ◌<◌, [], Ok, Option, slice_index};
ghost use Rattle.family.specs.Texts.{record_view};
ghost use Rattle.airing.specs.Rounds.{with_frame, occurrences};
ghost use Rattle.gatherer_tests.specs.Two.{meaning_of_two};

use airing::place::Place;
use family::family::Payload;
use family::text::Record;
use gatherer_tests::two::Two;
use pdu::refusal::Refusal;

// Stores a record at a new place, and draws twice: each of its two frames comes once.
pub fn frames_of_a_round(
    record: Record<bool>,
) -> Result<(Option<Payload>, Option<Payload>), Refusal>
    ensures { (s : Two) (first second : Option ℕ) → result ≡ Ok (first, second) → (i : ℕ) → i < 2 → occurrences (slice_index (meaning_of_two.cut s (record_view «record») 0) i) (with_frame second (with_frame first [])) ≡ 1 }
{
    let mut place = Place::new(Two);
    let _ = place.store(record)?;
    let first = place.draw();
    let second = place.draw();
    Ok((first, second))
}
