// Calls with their answers.
use crate::round::frames_of_a_round;
use airing::place::Place;
use airing::stored::Stored;
use family::family::Family;
use family::text::{Record, Text};
use gatherer_tests::two::{Two, frame_of};
use pdu::refusal::Refusal;
use std::test::Fail;

// A record of the small family.
fn record(head: bool, byte: u8) -> Result<Record<bool>, Refusal> {
    Ok(Record {
        head,
        text: Text::new(&[byte])?,
    })
}

#[test]
fn draws_in_rounds(rt: HostRuntime) -> Result<(), Fail> {
    let mut place = Place::new(Two);
    assert_eq!(rt; place.draw(), None);
    assert_eq!(rt; place.store(record(true, 65)?)?, Stored::Changed);
    assert_eq!(rt; place.draw(), Some(frame_of(0, 0, 1)));
    assert_eq!(rt; place.draw(), Some(frame_of(0, 1, 65)));
    assert_eq!(rt; place.draw(), Some(frame_of(0, 0, 1)));
    Ok(())
}

#[test]
fn goes_on_with_an_equal_record(rt: HostRuntime) -> Result<(), Fail> {
    let mut place = Place::new(Two);
    assert_eq!(rt; place.store(record(true, 65)?)?, Stored::Changed);
    assert_eq!(rt; place.draw(), Some(frame_of(0, 0, 1)));
    assert_eq!(rt; place.store(record(false, 65)?)?, Stored::Unchanged);
    assert_eq!(rt; place.draw(), Some(frame_of(0, 1, 65)));
    assert_eq!(rt; place.draw(), Some(frame_of(0, 0, 1)));
    Ok(())
}

#[test]
fn counts_changes_modulo_four(rt: HostRuntime) -> Result<(), Fail> {
    let mut place = Place::new(Two);
    assert_eq!(rt; place.sequence_number(), None);
    for byte in 1..5u8 {
        assert_eq!(rt; place.store(record(true, byte)?)?, Stored::Changed);
        assert_eq!(rt; place.sequence_number(), Some(byte - 1));
    }
    assert_eq!(rt; place.draw(), Some(frame_of(3, 0, 1)));
    assert_eq!(rt; place.store(record(false, 5)?)?, Stored::Changed);
    assert_eq!(rt; place.draw(), Some(frame_of(0, 0, 0)));
    Ok(())
}

#[test]
fn keeps_a_withdrawn_record(rt: HostRuntime) -> Result<(), Fail> {
    let mut place = Place::new(Two);
    assert_eq!(rt; place.store(record(true, 65)?)?, Stored::Changed);
    assert_eq!(rt; place.draw(), Some(frame_of(0, 0, 1)));
    place.withdraw();
    assert_eq!(rt; place.is_on_air(), false);
    assert_eq!(rt; place.sequence_number(), Some(0));
    assert_eq!(rt; place.draw(), None);
    assert_eq!(rt; place.store(record(true, 65)?)?, Stored::Unchanged);
    assert_eq!(rt; place.is_on_air(), true);
    assert_eq!(rt; place.draw(), Some(frame_of(0, 1, 65)));
    Ok(())
}

#[test]
fn refuses_an_unlawful_record(rt: HostRuntime) -> Result<(), Fail> {
    let mut place = Place::new(Two);
    assert_eq!(rt; place.store(record(true, 65)?)?, Stored::Changed);
    assert_eq!(rt; place.store(record(true, 0)?), Err(Refusal::TextByte));
    assert_eq!(rt; place.family().sequence_numbers(), 4);
    assert_eq!(rt; place.draw(), Some(frame_of(0, 0, 1)));
    Ok(())
}

#[test]
fn draws_each_frame_of_a_round(rt: HostRuntime) -> Result<(), Fail> {
    let (first, second) = frames_of_a_round(record(true, 65)?)?;
    assert_eq!(rt; first, Some(frame_of(0, 0, 1)));
    assert_eq!(rt; second, Some(frame_of(0, 1, 65)));
    Ok(())
}
