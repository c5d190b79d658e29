// What a PDU says.
use message::message::Message;

#[derive(Clone, Copy)]
pub struct Contents {
    pub first: Message,
    pub second: Option<Message>,
    // Bit 64, kept as it is.
    pub reserved: bool,
    // Bit 65: the station's time is locked to GPS.
    pub time_locked: bool,
    // Bits 66 and 67, two bits of the frame number.
    pub pair: u8,
}
