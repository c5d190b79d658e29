// Whole PDUs: which are refused, and what accepted ones say.
use crate::refusals::number_of;
use crate::worked::worked_pdus;
use contents::contents::Contents;
use message::message::Message;
use pdu::refusal::Refusal;
use std::test::Fail;

fn refusal(bytes: &[u8]) -> u8 {
    number_of(Contents::read(bytes))
}

#[test]
fn each_refusal_has_its_bytes(rt: HostRuntime) {
    assert_eq!(rt; refusal(&[]), 11);
    assert_eq!(rt; refusal(&[0; 9]), 11);
    assert_eq!(rt; refusal(&[0; 11]), 11);
    assert_eq!(rt; refusal(&[0x02, 0x92, 0, 0, 0, 0, 0, 0, 0x01, 0x70]), 12);
    assert_eq!(rt; refusal(&[0x80, 0, 0, 0, 0, 0, 0, 0, 0x00, 0x01]), 13);
    assert_eq!(rt; refusal(&[0x0C, 0, 0, 0, 0, 0, 0, 0, 0x00, 0x30]), 14);
    assert_eq!(rt; refusal(&[0x40, 0, 0, 0, 0, 0, 0, 0, 0x00, 0x02]), 15);
    assert_eq!(rt; refusal(&[0x07, 0xE0, 0, 0, 0, 0, 0, 0, 0x07, 0xE0]), 16);
    assert_eq!(rt; refusal(&[0, 0, 0, 0, 0, 0, 0, 0x01, 0x04, 0x27]), 17);
}

#[test]
fn worked_bytes_are_written_again(rt: HostRuntime) -> Result<(), Fail> {
    for bytes in worked_pdus() {
        let contents = Contents::read(&bytes)?;
        let mut buffer = [0xFF; 10];
        contents.write(&mut buffer)?;
        assert_eq!(rt; buffer, bytes);
    }
    Ok(())
}

// The country of a station ID.
fn country(bytes: &[u8]) -> Result<Option<u16>, Refusal> {
    match Contents::read(bytes)?.first {
        Message::StationId(id) => Ok(Some(id.country.0)),
        _ => Ok(None),
    }
}

#[test]
fn countries(rt: HostRuntime) {
    let [first, second, third, ..] = worked_pdus();
    assert_eq!(rt; country(&first), Ok(Some(64)));
    assert_eq!(rt; country(&second), Ok(Some(64)));
    assert_eq!(rt; country(&third), Ok(Some(658)));
}

#[test]
fn a_refused_write_leaves_the_buffer(rt: HostRuntime) -> Result<(), Fail> {
    let [first, ..] = worked_pdus();
    let contents = Contents::read(&first)?;
    let mut short = [7; 9];
    assert_eq!(rt; number_of(contents.write(&mut short)), 11);
    assert_eq!(rt; short, [7; 9]);
    Ok(())
}
