// What a card draws, and what it refuses.
use crate::station::{TEST, drawn, message, name, new_card};
use airing::stored::Stored;
use contents::contents::Contents;
use message::message::Message;
use pdu::refusal::Refusal;
use std::test::Fail;

#[test]
fn an_empty_card_draws_the_station(rt: HostRuntime) -> Result<(), Fail> {
    let mut card = new_card(64)?;
    let station = drawn(&mut card)?;
    for _ in 0..3 {
        assert_eq!(rt; drawn(&mut card)?, station);
    }
    let contents = Contents::read(&station)?;
    assert!(rt; matches!(contents.first, Message::ShortName(name) if name.characters.0.0 == 22));
    assert!(rt; matches!(contents.second, Some(Message::StationId(id)) if id.country.0 == 64));
    Ok(())
}

#[test]
fn a_record_is_drawn_at_its_turn(rt: HostRuntime) -> Result<(), Fail> {
    let mut card = new_card(64)?;
    assert_eq!(rt; card.store(5, message(b"TEST")?), Ok(Stored::Changed));
    assert_eq!(rt; card.store(5, message(b"TEST")?), Ok(Stored::Unchanged));
    let station = drawn(&mut card)?;
    assert_eq!(rt; drawn(&mut card)?, station);
    assert_eq!(rt; drawn(&mut card)?, TEST);
    assert_eq!(rt; drawn(&mut card)?, station);
    card.withdraw(5)?;
    for _ in 0..4 {
        assert_eq!(rt; drawn(&mut card)?, station);
    }
    Ok(())
}

#[test]
fn a_card_refuses(rt: HostRuntime) -> Result<(), Fail> {
    assert_eq!(rt; new_card(1024).err(), Some(Refusal::OutOfRange));
    let mut card = new_card(64)?;
    assert_eq!(rt;
        card.store(3, message(b"TEST")?),
        Err(Refusal::HeadSettingOrPlace)
    );
    assert_eq!(rt; card.store(5, message(b"TES")?), Err(Refusal::TextLength));
    assert_eq!(rt; card.store(2, name(&[0x41, 0x80])?), Err(Refusal::TextByte));
    assert_eq!(rt;
        card.store(5, name(b"TEST")?),
        Err(Refusal::HeadSettingOrPlace)
    );
    assert_eq!(rt; card.withdraw(4), Err(Refusal::HeadSettingOrPlace));
    let mut short = [7; 9];
    assert_eq!(rt; card.draw(&mut short), Err(Refusal::NotTenBytes));
    assert_eq!(rt; short, [7; 9]);
    Ok(())
}
