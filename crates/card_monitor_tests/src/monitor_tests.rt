// What a monitor answers and shows, and the questions that it refuses.
use crate::station::{TEST, new_monitor, offered, shown};
use contents::contents::Contents;
use message::location::{Angle, LatitudeHalf, LocationHalf, LongitudeHalf};
use message::message::Message;
use pdu::refusal::Refusal;
use std::test::Fail;

const LETTER_A: [u8; 10] = [0x08, 0x08, 0x20, 0x00, 0x00, 0x00, 0x00, 0x00, 0x03, 0x62];

const ALERT_BEGIN: [u8; 10] = [0x24, 0x00, 0x00, 0x70, 0x03, 0x00, 0x00, 0x00, 0x00, 0x8E];

const ALERT_END: [u8; 10] = [0x24, 0x10, 0x00, 0x00, 0x00, 0x00, 0x00, 0x00, 0x08, 0x24];

const STATION: [u8; 10] = [0x00, 0x40, 0x00, 0x00, 0x00, 0x00, 0x00, 0x00, 0x02, 0x00];

#[test]
fn the_worked_bytes_are_shown(rt: HostRuntime) -> Result<(), Fail> {
    let mut monitor = new_monitor()?;
    assert_eq!(rt; offered(&mut monitor, &TEST), 2);
    assert_eq!(rt;
        shown(&monitor, 5)?,
        (4, [0x54, 0x45, 0x53, 0x54, 7, 7, 7, 7, 7, 7])
    );
    assert_eq!(rt; offered(&mut monitor, &TEST), 3);
    assert_eq!(rt; monitor.fresh_count(5)?, 1);
    assert_eq!(rt; offered(&mut monitor, &LETTER_A), 2);
    assert_eq!(rt; shown(&monitor, 2)?, (1, [0x41, 7, 7, 7, 7, 7, 7, 7, 7, 7]));
    assert_eq!(rt; offered(&mut monitor, &ALERT_BEGIN), 1);
    assert_eq!(rt; monitor.missing(9)?, 2);
    assert_eq!(rt; offered(&mut monitor, &ALERT_END), 2);
    assert_eq!(rt; shown(&monitor, 9)?, (7, [0, 0, 0, 0, 0, 0, 0, 7, 7, 7]));
    assert_eq!(rt; offered(&mut monitor, &STATION), 0);
    assert_eq!(rt; monitor.information().station_id()?.country.0, 64);
    Ok(())
}

#[test]
fn two_halves_in_one_pdu_are_a_location(rt: HostRuntime) -> Result<(), Fail> {
    let contents = Contents {
        first: Message::Location(LocationHalf::Latitude(LatitudeHalf {
            angle: Angle(321_095),
            altitude: 0,
        })),
        second: Some(Message::Location(LocationHalf::Longitude(LongitudeHalf {
            angle: Angle(-629_297),
            altitude: 6,
        }))),
        reserved: false,
        time_locked: false,
        pair: 0,
    };
    let mut pdu = [0; 10];
    contents.write(&mut pdu)?;
    let mut monitor = new_monitor()?;
    assert_eq!(rt;
        monitor.information().location().err(),
        Some(Refusal::NothingThere)
    );
    assert_eq!(rt; offered(&mut monitor, &pdu), 0);
    let (latitude, longitude, altitude) = monitor.information().location()?;
    assert_eq!(rt; latitude.0, 321_095);
    assert_eq!(rt; longitude.0, -629_297);
    assert_eq!(rt; altitude.0, 6);
    Ok(())
}

#[test]
fn questions_are_refused(rt: HostRuntime) -> Result<(), Fail> {
    let mut monitor = new_monitor()?;
    let mut buffer = [7; 3];
    assert_eq!(rt;
        monitor.copy_text(3, &mut buffer),
        Err(Refusal::HeadSettingOrPlace)
    );
    assert_eq!(rt;
        monitor.copy_text(5, &mut buffer),
        Err(Refusal::NothingThere)
    );
    assert_eq!(rt; offered(&mut monitor, &TEST), 2);
    assert_eq!(rt;
        monitor.copy_text(5, &mut buffer),
        Err(Refusal::BufferShort)
    );
    assert_eq!(rt; buffer, [7; 3]);
    assert_eq!(rt;
        monitor.shown_head(3).err(),
        Some(Refusal::HeadSettingOrPlace)
    );
    assert_eq!(rt; monitor.fresh_count(3), Err(Refusal::HeadSettingOrPlace));
    assert_eq!(rt; monitor.missing(3), Err(Refusal::HeadSettingOrPlace));
    assert_eq!(rt;
        monitor.information().program(64).err(),
        Some(Refusal::OutOfRange)
    );
    assert_eq!(rt;
        monitor.information().program(1).err(),
        Some(Refusal::NothingThere)
    );
    Ok(())
}

#[test]
fn a_forget_empties(rt: HostRuntime) -> Result<(), Fail> {
    let mut monitor = new_monitor()?;
    assert_eq!(rt; offered(&mut monitor, &TEST), 2);
    assert_eq!(rt; offered(&mut monitor, &STATION), 0);
    monitor.forget();
    assert_eq!(rt; shown(&monitor, 5).err(), Some(Refusal::NothingThere));
    assert_eq!(rt; monitor.missing(5), Err(Refusal::NothingThere));
    assert_eq!(rt; monitor.fresh_count(5)?, 0);
    assert_eq!(rt;
        monitor.information().station_id().err(),
        Some(Refusal::NothingThere)
    );
    assert_eq!(rt; offered(&mut monitor, &TEST), 2);
    Ok(())
}
