// Calls with their answers.
use crate::both::head_after_both;
use crate::two::{Two, frame_of};
use family::family::Family;
use family::text::{Record, Text};
use gatherer::answer::Answer;
use gatherer::gatherer::Gatherer;
use pdu::refusal::Refusal;
use std::test::Fail;

#[test]
fn shows_a_joined_record(rt: HostRuntime) -> Result<(), Fail> {
    let mut gatherer = Gatherer::new(Two);
    assert_eq!(rt; gatherer.offer(frame_of(1, 1, 65))?, Answer::Incomplete);
    assert_eq!(rt; gatherer.offer(frame_of(1, 0, 1))?, Answer::NewlyShown);
    assert_eq!(rt; gatherer.shown_head()?, true);
    let mut buffer = [9, 9];
    assert_eq!(rt; gatherer.copy_text(&mut buffer)?, 1);
    assert_eq!(rt; buffer[0], 65);
    assert_eq!(rt; buffer[1], 9);
    Ok(())
}

#[test]
fn shows_nothing_before(rt: HostRuntime) {
    let gatherer = Gatherer::new(Two);
    assert_eq!(rt; gatherer.shown_head(), Err(Refusal::NothingThere));
    assert_eq!(rt; gatherer.missing(), Err(Refusal::NothingThere));
    let mut buffer = [];
    assert_eq!(rt; gatherer.copy_text(&mut buffer), Err(Refusal::NothingThere));
    assert_eq!(rt; gatherer.fresh_count(), 0);
}

#[test]
fn drops_frames_of_another_sequence_number(rt: HostRuntime) -> Result<(), Fail> {
    let mut gatherer = Gatherer::new(Two);
    assert_eq!(rt; gatherer.offer(frame_of(0, 0, 1))?, Answer::Incomplete);
    assert_eq!(rt; gatherer.missing()?, 2);
    assert_eq!(rt; gatherer.offer(frame_of(1, 1, 65))?, Answer::Incomplete);
    assert_eq!(rt; gatherer.offer(frame_of(0, 1, 65))?, Answer::Incomplete);
    assert_eq!(rt; gatherer.shown_head(), Err(Refusal::NothingThere));
    Ok(())
}

#[test]
fn answers_repeats_and_counts(rt: HostRuntime) -> Result<(), Fail> {
    let mut gatherer = Gatherer::new(Two);
    assert_eq!(rt; gatherer.offer(frame_of(2, 0, 1))?, Answer::Incomplete);
    assert_eq!(rt; gatherer.offer(frame_of(2, 1, 65))?, Answer::NewlyShown);
    assert_eq!(rt; gatherer.offer(frame_of(2, 1, 65))?, Answer::ShownBefore);
    assert_eq!(rt; gatherer.offer(frame_of(2, 1, 0))?, Answer::DoesNotJoin);
    assert_eq!(rt; gatherer.offer(frame_of(2, 1, 66))?, Answer::NewlyShown);
    assert_eq!(rt; gatherer.fresh_count(), 2);
    Ok(())
}

#[test]
fn refuses_and_forgets(rt: HostRuntime) -> Result<(), Fail> {
    let mut gatherer = Gatherer::new(Two);
    assert_eq!(rt; gatherer.offer(frame_of(3, 0, 0))?, Answer::Incomplete);
    assert_eq!(rt; gatherer.offer(2048), Err(Refusal::UnlawfulFrame));
    assert_eq!(rt; u8::from(gatherer.offer(frame_of(3, 1, 65))?), 2);
    let mut buffer = [];
    assert_eq!(rt; gatherer.copy_text(&mut buffer), Err(Refusal::BufferShort));
    gatherer.forget();
    assert_eq!(rt; gatherer.shown_head(), Err(Refusal::NothingThere));
    Ok(())
}

#[test]
fn hears_a_record_after_anything(rt: HostRuntime) -> Result<(), Fail> {
    let mut gatherer = Gatherer::new(Two);
    assert_eq!(rt; gatherer.offer(frame_of(1, 0, 0))?, Answer::Incomplete);
    let record = Record {
        head: true,
        text: Text::new(&[65])?,
    };
    assert_eq!(rt; head_after_both(&mut gatherer, &record, 1)?, true);
    Ok(())
}
