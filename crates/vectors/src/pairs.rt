// Every pair of message numbers in one PDU.
ghost use Rattle.std.specs.Prelude.{◌≤◌, IfSome};

use crate::refusals::number_of;
use contents::contents::Contents;
use pdu::fields::Fields;
use pdu::pdu::Pdu;
use pdu::refusal::Refusal;

// What is due by the sizes alone: zero payloads are in range in every message.
fn due(first: u8, second: u8) -> u8 {
    match (size(first), size(second)) {
        (None, _) => 14,
        (Some(first), _) if first > 54 => 15,
        (_, None) => 14,
        (Some(first), Some(second)) if first + second > 54 => 15,
        _ => 0,
    }
}

// How many bits the payload of a message has; reserved messages have none.
fn size(number: u8) -> Option<u8>
    ensures { IfSome result (λ bits. bits ≤ 58) }
{
    match number {
        0 => Some(32),
        1 | 7 => Some(22),
        4 | 6 => Some(27),
        2 | 5 | 8 | 9 => Some(58),
        _ => None,
    }
}

// The answer to a PDU with two messages of zero payload; a second number stands first in the area where the first message has no payload.
fn answer(first: u8, second: u8) -> Result<u8, Refusal> {
    let before = size(first).unwrap_or(0);
    let area = if before > 54 {
        0
    } else {
        u64::from(second) << (54 - before)
    };
    let fields = Fields {
        extension: true,
        number: first,
        area: area % (1 << 58),
        reserved: false,
        time_locked: false,
        pair: 0,
    };
    let pdu = Pdu::try_from(fields)?;
    Ok(number_of(Contents::try_from(pdu)))
}

#[test]
fn every_pair_of_message_numbers(rt: HostRuntime) {
    for first in 0..16u8 {
        for second in 0..16u8 {
            assert_eq!(rt; answer(first, second), Ok(due(first, second)));
        }
    }
}
