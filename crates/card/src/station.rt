// What a station says of itself in a card's own PDU.
use message::station::{ShortName, StationId};

#[derive(Clone, Copy)]
pub struct Station {
    pub id: StationId,
    pub short_name: ShortName,
}
