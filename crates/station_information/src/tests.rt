// Messages heard, and what is then told.
use crate::information::StationInformation;
use message::location::{Angle, LatitudeHalf, LocationHalf, LongitudeHalf};
use message::message::Message;
use message::service::{AudioService, Service};
use message::station::{CountryCode, StationId};
use pdu::refusal::Refusal;
use std::test::Fail;

fn latitude(units: i32, altitude: u8) -> Message {
    Message::Location(LocationHalf::Latitude(LatitudeHalf {
        angle: Angle(units),
        altitude,
    }))
}

fn longitude(units: i32, altitude: u8) -> Message {
    Message::Location(LocationHalf::Longitude(LongitudeHalf {
        angle: Angle(units),
        altitude,
    }))
}

fn audio(program: u8, sound: u8) -> Message {
    Message::Service(Service::Audio(AudioService {
        restricted: false,
        program,
        program_type: 1,
        reserved: 0,
        sound,
    }))
}

fn station(facility: u32) -> Message {
    Message::StationId(StationId {
        country: CountryCode(0),
        reserved: 0,
        facility,
    })
}

#[test]
fn joins_the_halves_of_the_location(rt: HostRuntime) -> Result<(), Fail> {
    let mut information = StationInformation::new();
    information.hear(latitude(300, 2));
    assert_eq!(rt; information.location().err(), Some(Refusal::NothingThere));
    information.hear(longitude(-700, 5));
    let (north, east, altitude) = information.location()?;
    assert_eq!(rt; north.0, 300);
    assert_eq!(rt; east.0, -700);
    assert_eq!(rt; altitude.0, 37);
    Ok(())
}

#[test]
fn keeps_the_entries_of_programs_apart(rt: HostRuntime) -> Result<(), Fail> {
    let mut information = StationInformation::new();
    information.hear(audio(0, 1));
    information.hear(audio(63, 2));
    information.hear(audio(0, 3));
    assert_eq!(rt; information.program(0)?.sound, 3);
    assert_eq!(rt; information.program(63)?.sound, 2);
    assert_eq!(rt; information.program(1).err(), Some(Refusal::NothingThere));
    assert_eq!(rt; information.program(64).err(), Some(Refusal::OutOfRange));
    Ok(())
}

#[test]
fn tells_nothing_before_any_message(rt: HostRuntime) {
    let information = StationInformation::new();
    assert_eq!(rt; information.station_id().err(), Some(Refusal::NothingThere));
    assert_eq!(rt; information.short_name().err(), Some(Refusal::NothingThere));
    assert_eq!(rt;
        information.leap_seconds().err(),
        Some(Refusal::NothingThere)
    );
    assert_eq!(rt; information.local_time().err(), Some(Refusal::NothingThere));
    assert_eq!(rt; information.location().err(), Some(Refusal::NothingThere));
    assert_eq!(rt; information.program(63).err(), Some(Refusal::NothingThere));
}

#[test]
fn forgets_everything(rt: HostRuntime) -> Result<(), Fail> {
    let mut information = StationInformation::new();
    information.hear(station(7));
    information.hear(audio(5, 1));
    information.hear(station(8));
    assert_eq!(rt; information.station_id()?.facility, 8);
    information.forget();
    assert_eq!(rt; information.station_id().err(), Some(Refusal::NothingThere));
    assert_eq!(rt; information.program(5).err(), Some(Refusal::NothingThere));
    Ok(())
}
