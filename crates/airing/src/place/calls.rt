// The calls that change a place.
ghost use Rattle.std.specs.Prelude.{◌≡◌, true, false, [], ◌∷◌, if◌then◌else◌, Some, None, Err};
ghost use Rattle.pdu.specs.declared.refusal.Refusal.{Refusal};
ghost use Rattle.family.specs.Texts.{record_view};
ghost use Rattle.airing.specs.Calls.{withdrawn, is_unequal_to};
ghost use Rattle.airing.specs.declared.stored.Stored.TheVariants.{Changed, Unchanged};
ghost use Rattle.airing.specs.Agrees.{Agrees, InEveryHistory, Accepted, Drawn, held_view, is_on_air, aired_in};
ghost use Rattle.airing.specs.Steps.{record_of, next_sequence, successor_in, accepted_after};

use crate::place::{Current, Place};
use crate::stored::Stored;
use family::family::{Family, Payload};
use family::text::Record;
use pdu::refusal::Refusal;

impl<F: Family> Place<F> {
    // A place with no record.
    pub fn new(family: F) -> Place<F>
        ensures { Agrees F.Family.meaning family [] result }
    {
        Place {
            family,
            current: None,
        }
    }

    // Puts a lawful record on air. One equal to the last goes on as that was; any other has the
    // next sequence number and starts at its frame 0. An unlawful record is refused, and leaves
    // everything as found.
    pub fn store(&mut self, record: Record<F::Head>) -> Result<Stored, Refusal>
        ensures refusal { (e : Refusal) → F.Family.meaning.refusal self.old.family (record_view «record») ≡ Some e → result ≡ Err e }
        ensures unchanged { (e : Refusal) → result ≡ Err e → self.new ≡ self.old }
        ensures accepted { InEveryHistory F.Family.meaning self.old (λ s h. F.Family.meaning.refusal s (record_view «record») ≡ None → Accepted F.Family.meaning s h (record_view «record») result self.new) }
    {
        self.family.require_lawful(&record)?;
        Ok(self.accept(record))
    }

    // Takes the record off air, and keeps it.
    pub fn withdraw(&mut self)
        ensures agrees { InEveryHistory F.Family.meaning self.old (λ s h. Agrees F.Family.meaning s (withdrawn ∷ h) self.new) }
        ensures unchanged { is_on_air self.old ≡ false → self.new ≡ self.old }
    {
        if let Some(current) = &mut self.current {
            current.on_air = false;
        }
    }

    // The next frame of the record on air, in rounds; none while no record is on air, and then
    // everything is as found.
    pub fn draw(&mut self) -> Option<Payload>
        ensures drawn { InEveryHistory F.Family.meaning self.old (λ s h. Drawn F.Family.meaning s h result self.new) }
        ensures unchanged { result ≡ None → self.new ≡ self.old }
    {
        let current = self.record_on_air()?;
        // It is lawful, so the family refuses nothing here.
        let count = self.family.frame_count(&current.record).ok()?;
        let frame = self
            .family
            .frame(&current.record, current.sequence, current.next)
            .ok()?;
        self.current = Some(Current {
            next: successor(current.next, count),
            ..current
        });
        Some(frame)
    }

    // Puts a lawful record on air: the last as it was, if it equals that, and else as a change.
    fn accept(&mut self, record: Record<F::Head>) -> Stored
        ensures answer { result ≡ (if is_unequal_to (record_of (held_view self.old.current)) (record_view «record») then Changed else Unchanged) }
        ensures family { self.new.family ≡ self.old.family }
        ensures current { held_view self.new.current ≡ accepted_after F.Family.meaning.modulus (held_view self.old.current) (record_view «record») }
        ensures on_air { is_on_air self.new ≡ true }
    {
        match &mut self.current {
            Some(current) if current.record.equals(&record) => {
                current.on_air = true;
                Stored::Unchanged
            }
            _ => {
                let sequence = self.next_sequence();
                self.current = Some(Current {
                    record,
                    sequence,
                    next: 0,
                    on_air: true,
                });
                Stored::Changed
            }
        }
    }

    // The sequence number of the next change.
    fn next_sequence(&self) -> u8
        ensures { result ≡ next_sequence F.Family.meaning.modulus (held_view self.now.current) }
    {
        self.current.as_ref().map_or(0, |current| {
            let count = self.family.sequence_numbers();
            successor(usize::from(current.sequence), usize::from(count)) as u8
        })
    }

    // What is on air.
    fn record_on_air(&self) -> Option<Current<F::Head>>
        ensures { result ≡ aired_in self.now.current }
    {
        self.current.filter(|current| current.on_air)
    }
}

// The number after this one of so many numbers from 0; 0 comes after the last.
fn successor(number: usize, count: usize) -> usize
    ensures { result ≡ successor_in count number }
{
    if number < count.saturating_sub(1) {
        number + 1
    } else {
        0
    }
}
