// The steps of the exercise, told in a log.
ghost use Rattle.std.specs.Prelude.{◌≡◌, ◌∷◌};
ghost use Rattle.message.specs.Place.{place_number};
ghost use Rattle.family.specs.Texts.{record_view};
ghost use Rattle.card.specs.Calls.{store};
ghost use Rattle.air.specs.Runs.{card_calls};
ghost use Rattle.bench.specs.Ran.{InEveryHistory};
ghost use Rattle.course.specs.Exercise.{WentOn, drawn_times, texts_stored, message_changed, exercise_calls};

use crate::exercise::{Entry, Exercise, Texts};
use crate::shown::shown_text;
use bench::bench::{Bench, CopyAnswer};
use contents::contents::Contents;
use fading::fade::FadingBox;
use family::family::Family;
use family::text::Record;
use gatherer::answer::Answer;
use message::message::Message;
use message::place::Place;
use pdu::pdu::Pdu;
use std::alloc::AllocError;
use transport::head::Head;

// Runs the exercise on a bench, with so many draws in each half.
// Functions, and not methods of Exercise: code that is generic in the families and is lent a bench
// may not lend it on in a struct.
pub fn run<N: Family, M: Family, E: Family>(
    bench: &mut Bench<N, M, E>,
    texts: Texts<N::Head, M::Head, E::Head>,
    fading: &mut FadingBox,
    draws: u32,
    log: &mut Vec<Entry>,
) -> Result<(), AllocError>
    ensures { InEveryHistory N.Family.meaning M.Family.meaning E.Family.meaning bench.old (λ f st a. WentOn f st (exercise_calls texts draws (card_calls a)) result bench.new) }
{
    store_texts(bench, texts, log)?;
    pass_many(bench, fading, draws, log)?;
    change_message(bench, texts, log)?;
    pass_many(bench, fading, draws, log)
}

impl<'a, N: Family, M: Family, E: Family> Exercise<'a, N, M, E> {
    // Runs the exercise, with so many draws in each half.
    pub fn run(
        &mut self,
        texts: Texts<N::Head, M::Head, E::Head>,
        draws: u32,
    ) -> Result<(), AllocError>
        ensures went_on { InEveryHistory N.Family.meaning M.Family.meaning E.Family.meaning self.old.bench.now (λ f st a. WentOn f st (exercise_calls texts draws (card_calls a)) result self.new.bench.now) }
        ensures same_bench { self.new.bench.ghost_name ≡ self.old.bench.ghost_name }
    {
        run(self.bench, texts, self.fading, draws, self.log)
    }
}

// Stores the name, the message and the alert.
fn store_texts<N: Family, M: Family, E: Family>(
    bench: &mut Bench<N, M, E>,
    texts: Texts<N::Head, M::Head, E::Head>,
    log: &mut Vec<Entry>,
) -> Result<(), AllocError>
    ensures { InEveryHistory N.Family.meaning M.Family.meaning E.Family.meaning bench.old (λ f st a. WentOn f st (texts_stored texts (card_calls a)) result bench.new) }
{
    let name = Record {
        head: Head::Name(texts.name.head),
        text: texts.name.text,
    };
    store_one(bench, Place::Name, name, log)?;
    let message = Record {
        head: Head::Message(texts.message.head),
        text: texts.message.text,
    };
    store_one(bench, Place::Message, message, log)?;
    let alert = Record {
        head: Head::Alert(texts.alert.head),
        text: texts.alert.text,
    };
    store_one(bench, Place::Alert, alert, log)
}

// Stores the message again, as when the acknowledgement is lost, and then changes it.
fn change_message<N: Family, M: Family, E: Family>(
    bench: &mut Bench<N, M, E>,
    texts: Texts<N::Head, M::Head, E::Head>,
    log: &mut Vec<Entry>,
) -> Result<(), AllocError>
    ensures { InEveryHistory N.Family.meaning M.Family.meaning E.Family.meaning bench.old (λ f st a. WentOn f st (message_changed texts (card_calls a)) result bench.new) }
{
    let message = Record {
        head: Head::Message(texts.message.head),
        text: texts.message.text,
    };
    store_one(bench, Place::Message, message, log)?;
    let changed = Record {
        head: Head::Message(texts.changed.head),
        text: texts.changed.text,
    };
    store_one(bench, Place::Message, changed, log)
}

// Stores one record, and tells the answer.
fn store_one<N: Family, M: Family, E: Family>(
    bench: &mut Bench<N, M, E>,
    place: Place,
    record: Record<Head<N::Head, M::Head, E::Head>>,
    log: &mut Vec<Entry>,
) -> Result<(), AllocError>
    ensures { InEveryHistory N.Family.meaning M.Family.meaning E.Family.meaning bench.old (λ f st a. WentOn f st (store (place_number place) (record_view «record») ∷ card_calls a) result bench.new) }
{
    let text = record.text;
    let answer = bench.store(u8::from(place), record);
    log.push(Entry::Stored {
        place,
        text,
        answer,
    })?;
    Ok(())
}

// Draws so many PDUs and sends each through the fading box.
fn pass_many<N: Family, M: Family, E: Family>(
    bench: &mut Bench<N, M, E>,
    fading: &mut FadingBox,
    draws: u32,
    log: &mut Vec<Entry>,
) -> Result<(), AllocError>
    ensures { InEveryHistory N.Family.meaning M.Family.meaning E.Family.meaning bench.old (λ f st a. WentOn f st (drawn_times draws (card_calls a)) result bench.new) }
{
    for _ in 0..draws {
        pass_one(bench, fading, log)?;
    }
    Ok(())
}

// Draws one PDU, sends it through the fading box, and tells what came of it.
fn pass_one<N: Family, M: Family, E: Family>(
    bench: &mut Bench<N, M, E>,
    fading: &mut FadingBox,
    log: &mut Vec<Entry>,
) -> Result<(), AllocError>
    ensures { InEveryHistory N.Family.meaning M.Family.meaning E.Family.meaning bench.old (λ f st a. WentOn f st (drawn_times 1 (card_calls a)) result bench.new) }
{
    let fade = fading.next_fade();
    match bench.pass(fade) {
        Ok(passage) => {
            note(bench, passage.pdu, passage.first, log)?;
            note(bench, passage.pdu, passage.second, log)
        }
        // A draw into ten bytes is not refused.
        Err(_) => Ok(()),
    }
}

// Tells a refusal, or a text that is newly shown.
fn note<N: Family, M: Family, E: Family>(
    bench: &Bench<N, M, E>,
    pdu: Pdu,
    answer: CopyAnswer,
    log: &mut Vec<Entry>,
) -> Result<(), AllocError> {
    let drawn = bench.tally().drawn;
    match answer {
        Some(Err(refusal)) => log.push(Entry::Refused { drawn, refusal })?,
        Some(Ok(Some(Answer::NewlyShown))) => {
            if let Some(entry) = shown(bench, pdu, drawn) {
                log.push(entry)?;
            }
        }
        _ => {}
    }
    Ok(())
}

// The text shown at the place of the PDU's frame.
fn shown<N: Family, M: Family, E: Family>(
    bench: &Bench<N, M, E>,
    pdu: Pdu,
    drawn: u32,
) -> Option<Entry> {
    let contents = Contents::try_from(pdu).ok()?;
    let Message::Frame(place, _) = contents.first else {
        return None;
    };
    let text = shown_text(bench.monitor(), place)?;
    Some(Entry::Shown { drawn, place, text })
}
