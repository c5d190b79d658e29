// A card and a monitor with the same families, and the PDU between them.
mod calls;

use card::card::Card;
use family::family::Family;
use monitor::monitor::Monitor;
use pdu::pdu::Pdu;

#[derive(Drop)]
pub struct Link<N: Family, M: Family, E: Family> {
    card: Card<N, M, E>,
    monitor: Monitor<N, M, E>,
    // The PDU drawn last.
    pdu: Option<Pdu>,
}
