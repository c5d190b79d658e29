// Single messages: the edges of their fields, read and written.
use crate::refusals::number_of;
use message::location::{Angle, Half, LocationHalf};
use message::message::Message;
use message::parameter::Parameter;
use pdu::refusal::Refusal;

fn parsed(number: u8, payload: u64) -> u8 {
    number_of(Message::parse(number, payload))
}

// What is read again of the half that is written.
fn read_again(half: LocationHalf) -> Result<Message, Refusal> {
    let payload = Message::Location(half).payload()?;
    Message::parse(4, payload)
}

fn at<const LIMIT: u32>(units: i32) -> Half<LIMIT> {
    Half {
        angle: Angle(units),
        altitude: 15,
    }
}

fn latitude(units: i32) -> u8 {
    number_of(read_again(LocationHalf::Latitude(at(units))))
}

fn longitude(units: i32) -> u8 {
    number_of(read_again(LocationHalf::Longitude(at(units))))
}

#[test]
fn the_edges_of_a_location(rt: HostRuntime) {
    assert_eq!(rt; latitude(737_280), 0);
    assert_eq!(rt; latitude(-737_280), 0);
    assert_eq!(rt; latitude(737_281), 16);
    assert_eq!(rt; latitude(-737_281), 16);
    assert_eq!(rt; longitude(1_474_560), 0);
    assert_eq!(rt; longitude(-1_474_560), 0);
    assert_eq!(rt; longitude(1_474_561), 16);
    assert_eq!(rt; longitude(-1_474_561), 16);
    assert_eq!(rt; parsed(4, (1 << 26) + 737_281 * 16), 16);
    assert_eq!(rt; parsed(4, (1 << 26) + (4_194_304 - 737_281) * 16), 16);
}

#[test]
fn fields_that_are_refused(rt: HostRuntime) {
    // Character 31 at each of the four places, extensions 2 and 3.
    assert_eq!(rt; parsed(1, 31 << 17), 16);
    assert_eq!(rt; parsed(1, 31 << 12), 16);
    assert_eq!(rt; parsed(1, 31 << 7), 16);
    assert_eq!(rt; parsed(1, 31 << 2), 16);
    assert_eq!(rt; parsed(1, 2), 16);
    assert_eq!(rt; parsed(1, 3), 16);
    // Categories 2 and 3.
    assert_eq!(rt; parsed(6, 2 << 25), 16);
    assert_eq!(rt; parsed(6, 3 << 25), 16);
    assert_eq!(rt; parsed(6, (2 << 25) - 1), 0);
}

// The offset in minutes of a local time with these eleven bits.
fn minutes(bits: u64) -> Option<i16> {
    match Message::parse(7, (3 << 16) + ((bits % 2048) << 5)) {
        Ok(Message::Parameter(Parameter::Local(local))) => Some(local.offset.0),
        _ => None,
    }
}

#[test]
fn offsets_of_time_zones(rt: HostRuntime) {
    assert_eq!(rt; minutes(0b11100010000), Some(-240));
    assert_eq!(rt; minutes(0b11011010100), Some(-300));
    assert_eq!(rt; minutes(0b11000100000), Some(-480));
    assert_eq!(rt; minutes(0b01001011000), Some(600));
    assert_eq!(rt; minutes(0b11100101110), Some(-210));
    assert_eq!(rt; minutes(1023), Some(1023));
    assert_eq!(rt; minutes(1024), Some(-1024));
}
