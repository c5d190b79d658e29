// Offers that are refused: each has its number, and what is shown stays.
use crate::station::{TEST, new_monitor, offered, shown};
use std::test::Fail;

// Ten bytes, and the number of their refusal.
const REFUSED: [([u8; 10], u8); 7] = [
    ([0x02, 0x92, 0, 0, 0, 0, 0, 0, 0x01, 0x70], 12),
    ([0x80, 0, 0, 0, 0, 0, 0, 0, 0x00, 0x01], 13),
    ([0x0C, 0, 0, 0, 0, 0, 0, 0, 0x00, 0x30], 14),
    ([0x40, 0, 0, 0, 0, 0, 0, 0, 0x00, 0x02], 15),
    ([0x07, 0xE0, 0, 0, 0, 0, 0, 0, 0x07, 0xE0], 16),
    ([0, 0, 0, 0, 0, 0, 0, 0x01, 0x04, 0x27], 17),
    ([0x14, 0, 0, 0, 0, 0, 0, 0, 0x00, 0x28], 18),
];

#[test]
fn a_refused_offer_leaves_what_is_shown(rt: HostRuntime) -> Result<(), Fail> {
    let mut monitor = new_monitor()?;
    assert_eq!(rt; offered(&mut monitor, &TEST), 2);
    assert_eq!(rt; offered(&mut monitor, &TEST[0..9]), 11);
    for (bytes, number) in REFUSED {
        assert_eq!(rt; offered(&mut monitor, &bytes), number);
    }
    assert_eq!(rt;
        shown(&monitor, 5)?,
        (4, [0x54, 0x45, 0x53, 0x54, 7, 7, 7, 7, 7, 7])
    );
    assert_eq!(rt; monitor.fresh_count(5)?, 1);
    Ok(())
}
