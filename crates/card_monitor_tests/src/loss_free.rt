// A card heard without loss: in 4 draws for each frame of a record, a monitor shows it.
use crate::station::{alert, drawn, message, name, new_card, new_monitor, shown};
use airing::stored::Stored;
use std::test::Fail;
use transport::head::Head;

#[test]
fn a_monitor_shows_what_a_card_draws(rt: HostRuntime) -> Result<(), Fail> {
    let mut card = new_card(64)?;
    assert_eq!(rt; card.store(2, name(b"STATION")?)?, Stored::Changed);
    assert_eq!(rt; card.store(5, message(b"TEN BYTES!")?)?, Stored::Changed);
    assert_eq!(rt; card.store(9, alert(b"ALERTS!")?)?, Stored::Changed);
    let mut monitor = new_monitor()?;
    // The message and the alert have two frames each.
    for _ in 0..8 {
        monitor.offer(&drawn(&mut card)?)?;
    }
    assert_eq!(rt; shown(&monitor, 2)?, (7, *b"STATION\x07\x07\x07"));
    assert_eq!(rt; shown(&monitor, 5)?, (10, *b"TEN BYTES!"));
    assert_eq!(rt; shown(&monitor, 9)?, (7, *b"ALERTS!\x07\x07\x07"));
    assert_eq!(rt; monitor.information().station_id()?.facility, 7);
    assert!(rt; matches!(monitor.shown_head(9)?, Head::Alert(head) if head.control_length == 3));
    Ok(())
}
