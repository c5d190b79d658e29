// The three layouts under the one gatherer: known frames, their answers and the texts shown.
use alert::alert::Alert;
use family::family::Family;
use gatherer::gatherer::Gatherer;
use name::name::Name;
use station_message::message::StationMessage;
use std::test::Fail;

#[test]
fn the_message_test_is_shown(rt: HostRuntime) -> Result<(), Fail> {
    let mut place = Gatherer::new(StationMessage);
    assert_eq!(rt; u8::from(place.offer(0x24154455354)?), 2);
    assert_eq!(rt; u8::from(place.offer(0x24154455354)?), 3);
    let mut buffer = [7; 6];
    assert_eq!(rt; place.copy_text(&mut buffer)?, 4);
    assert_eq!(rt; buffer, [0x54, 0x45, 0x53, 0x54, 7, 7]);
    assert_eq!(rt; place.fresh_count(), 1);
    Ok(())
}

#[test]
fn the_name_a_is_shown(rt: HostRuntime) -> Result<(), Fail> {
    let mut place = Gatherer::new(Name);
    assert_eq!(rt; u8::from(place.offer(0x8200000000000)?), 2);
    let mut buffer = [7; 2];
    assert_eq!(rt; place.copy_text(&mut buffer)?, 1);
    assert_eq!(rt; buffer, [0x41, 7]);
    Ok(())
}

#[test]
fn an_alert_of_two_frames_is_shown(rt: HostRuntime) -> Result<(), Fail> {
    let mut place = Gatherer::new(Alert::new(9)?);
    assert_eq!(rt; u8::from(place.offer(0x7003000000)?), 1);
    assert_eq!(rt; place.missing()?, 2);
    assert_eq!(rt; u8::from(place.offer(0x10000000000000)?), 2);
    assert_eq!(rt; place.shown_head()?.control_length, 3);
    let mut buffer = [7; 8];
    assert_eq!(rt; place.copy_text(&mut buffer)?, 7);
    assert_eq!(rt; buffer, [0, 0, 0, 0, 0, 0, 0, 7]);
    Ok(())
}
