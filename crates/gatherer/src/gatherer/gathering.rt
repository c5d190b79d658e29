// The calls that change a gatherer.
ghost use Rattle.std.specs.Prelude.{◌≡◌, ℕ, ◌+◌, ◌≤◌, min, true, false, [], ◌∷◌, if◌then◌else◌, Some, nat_eq};
ghost use Rattle.family.specs.Texts.{record_view, join_view};
ghost use Rattle.gatherer.specs.Answers.{number_of};
ghost use Rattle.gatherer.specs.Series.{accepted, forgotten, series, frames_told};
ghost use Rattle.gatherer.specs.Due.{attempted, is_equal_to, joined_answer, refusal_due, refusal_in};
ghost use Rattle.gatherer.specs.Agrees.{Agrees, InEveryHistory, InEverySeries, Holds, Taken, attempt_view, attempt_due};

use crate::answer::Answer;
use crate::gatherer::{Gatherer, Table};
use family::family::{Family, Payload};
use family::text::Record;
use pdu::refusal::Refusal;

impl<F: Family> Gatherer<F> {
    // A gatherer that holds no frame and shows nothing.
    pub fn new(family: F) -> Gatherer<F>
        ensures { Agrees F.Family.meaning family [] result }
    {
        Gatherer {
            family,
            sequence: None,
            table: Table::empty(),
            shown: None,
            fresh: 0,
        }
    }

    // Takes a lawful frame, and shows the record that the frames held then join to.
    // Any other frame is refused, and leaves everything as found.
    pub fn offer(&mut self, frame: Payload) -> Result<Answer, Refusal>
        ensures refusal { refusal_in result ≡ refusal_due F.Family.meaning self.old.family frame }
        ensures unchanged { F.Family.meaning.lawful self.old.family frame ≡ false → self.new ≡ self.old }
        ensures taken { InEveryHistory F.Family.meaning self.old (λ s h. F.Family.meaning.lawful s frame ≡ true → Taken F.Family.meaning s h frame result self.new) }
    {
        self.take(frame)?;
        // Not `?`: without a record there is an answer too.
        match self.attempt() {
            Ok(record) => Ok(self.show(record)),
            Err(answer) => Ok(answer),
        }
    }

    // Drops the frames, the record shown and the count, and keeps the family.
    pub fn forget(&mut self)
        ensures emptied { Agrees F.Family.meaning self.old.family [] self.new }
        ensures agrees { InEveryHistory F.Family.meaning self.old (λ s h. Agrees F.Family.meaning s (forgotten ∷ h) self.new) }
    {
        self.sequence = None;
        self.table = Table::empty();
        self.shown = None;
        self.fresh = 0;
    }

    // Holds a lawful frame, and no frame of another sequence number beside it.
    fn take(&mut self, frame: Payload) -> Result<(), Refusal>
        ensures refusal { refusal_in result ≡ refusal_due F.Family.meaning self.old.family frame }
        ensures unchanged { F.Family.meaning.lawful self.old.family frame ≡ false → self.new ≡ self.old }
        ensures holds { InEverySeries F.Family.meaning self.old (λ s h. F.Family.meaning.lawful s frame ≡ true → Holds F.Family.meaning s (accepted frame ∷ h) self.new) }
        ensures shown { self.new.shown ≡ self.old.shown }
        ensures fresh { self.new.fresh ≡ self.old.fresh }
    {
        let sequence = self.family.sequence(frame)?;
        let number = self.family.number(frame)?;
        // The state held, against the sequence number offered.
        match (self.sequence, sequence) {
            (Some(held), offered) if held == offered => {}
            _ => {
                self.table = Table::empty();
                self.sequence = Some(sequence);
            }
        }
        self.table.put(number, frame);
        Ok(())
    }

    // How many frames the series should have, which frame 0 tells.
    pub(super) fn frames_told(&self) -> Option<usize>
        ensures due { InEverySeries F.Family.meaning self.now (λ s h. result ≡ frames_told F.Family.meaning s (series F.Family.meaning s h)) }
        ensures few { (n : ℕ) → result ≡ Some n → n ≤ 64 }
    {
        let first = self.table.slots[0]?;
        // The frames held are lawful, so it is not refused.
        let last = self.family.last_number(first).ok()?;
        Some(last + 1)
    }

    // Joins the frames held, if the series is full; else gives the answer that is due without a record.
    fn attempt(&self) -> Result<Record<F::Head>, Answer>
        ensures { InEverySeries F.Family.meaning self.now (λ s h. attempt_view result ≡ attempt_due (attempted F.Family.meaning s h)) }
    {
        let count = self.frames_told().ok_or(Answer::Incomplete)?;
        let frames = self.table.frames_below(count).ok_or(Answer::Incomplete)?;
        self.family
            .join(&frames[..count])
            .ok_or(Answer::DoesNotJoin)
    }

    // Whether the record shown equals this one.
    fn shows(&self, record: &Record<F::Head>) -> bool
        ensures { result ≡ is_equal_to (join_view self.now.shown) (record_view «record».now) }
    {
        self.shown
            .as_ref()
            .is_some_and(|shown| shown.equals(record))
    }

    // Shows a record, and counts it where it is new.
    fn show(&mut self, record: Record<F::Head>) -> Answer
        ensures answer { result ≡ joined_answer (join_view self.old.shown) (record_view «record») }
        ensures shown { self.new.shown ≡ Some «record» }
        ensures fresh { self.new.fresh ≡ (if nat_eq (number_of result) 2 then min (self.old.fresh + 1) 4294967295 else self.old.fresh) }
        ensures family { self.new.family ≡ self.old.family }
        ensures sequence { self.new.sequence ≡ self.old.sequence }
        ensures table { self.new.table ≡ self.old.table }
    {
        let shown_before = self.shows(&record);
        self.shown = Some(record);
        if shown_before {
            return Answer::ShownBefore;
        }
        self.fresh = self.fresh.saturating_add(1);
        Answer::NewlyShown
    }
}
