// The three layouts: how many frames a text needs, and which texts and frames are refused.
use crate::refusals::number_of;
use alert::alert::{Alert, AlertHead};
use family::family::Family;
use family::text::{Record, Text};
use name::name::Name;
use pdu::refusal::Refusal;
use station_message::message::{MessageHead, StationMessage};
use std::test::Fail;
use transport::families::Families;

const LETTERS: [u8; 400] = [65; 400];

// The number of frames, or the refusal's number.
fn frames<F: Family>(family: &F, head: F::Head, bytes: &[u8]) -> Result<usize, u8> {
    match count(family, head, bytes) {
        Ok(count) => Ok(count),
        Err(refusal) => Err(u8::from(refusal)),
    }
}

fn count<F: Family>(family: &F, head: F::Head, bytes: &[u8]) -> Result<usize, Refusal> {
    let text = Text::new(bytes)?;
    family.frame_count(&Record { head, text })
}

fn message(bytes: &[u8]) -> Result<usize, u8> {
    let head = MessageHead {
        priority: 0,
        encoding: 0,
    };
    frames(&StationMessage, head, bytes)
}

#[test]
fn frames_of_a_message(rt: HostRuntime) {
    assert_eq!(rt; message(&LETTERS[0..3]), Err(19));
    assert_eq!(rt; message(&LETTERS[0..4]), Ok(1));
    assert_eq!(rt; message(&LETTERS[0..5]), Ok(2));
    assert_eq!(rt; message(&LETTERS[0..10]), Ok(2));
    assert_eq!(rt; message(&LETTERS[0..11]), Ok(3));
    assert_eq!(rt; message(&LETTERS[0..190]), Ok(32));
    assert_eq!(rt; message(&LETTERS[0..191]), Err(19));
}

#[test]
fn frames_of_a_name(rt: HostRuntime) {
    assert_eq!(rt; frames(&Name, (), &LETTERS[0..1]), Ok(1));
    assert_eq!(rt; frames(&Name, (), &LETTERS[0..7]), Ok(1));
    assert_eq!(rt; frames(&Name, (), &LETTERS[0..8]), Ok(2));
    assert_eq!(rt; frames(&Name, (), &LETTERS[0..56]), Ok(8));
    assert_eq!(rt; frames(&Name, (), &LETTERS[0..57]), Err(19));
    assert_eq!(rt; frames(&Name, (), &[0x41, 0x80]), Err(20));
}

fn generator(generator: u8) -> u8 {
    number_of(Alert::new(generator))
}

#[test]
fn frames_of_an_alert(rt: HostRuntime) -> Result<(), Fail> {
    let alerts = Alert::new(9)?;
    let head = AlertHead {
        encoding: 4,
        control_length: 3,
    };
    assert_eq!(rt; frames(&alerts, head, &LETTERS[0..7]), Ok(2));
    assert_eq!(rt; frames(&alerts, head, &LETTERS[0..381]), Ok(64));
    assert_eq!(rt; frames(&alerts, head, &LETTERS[0..382]), Err(19));
    assert_eq!(rt; generator(1), 0);
    assert_eq!(rt; generator(8), 23);
    assert_eq!(rt; generator(127), 0);
    assert_eq!(rt; generator(129), 23);
    Ok(())
}

#[test]
fn an_unlawful_frame_is_refused_last(rt: HostRuntime) -> Result<(), Fail> {
    let alerts = Alert::new(9)?;
    let bytes = [0x14, 0, 0, 0, 0, 0, 0, 0, 0x00, 0x28];
    let families = Families {
        name: &Name,
        message: &StationMessage,
        alert: &alerts,
    };
    assert_eq!(rt; number_of(families.read(&bytes)), 18);
    Ok(())
}
