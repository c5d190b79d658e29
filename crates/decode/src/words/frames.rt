// A frame of a name, a message or an alert.
use alert::alert::Alert;
use family::family::{Family, Payload};
use family::family_layout::FamilyLayout;
use family::laid_out::bytes_held;
use hexadecimal::printed::Quoted;
use message::place::Place;
use name::name::Name;
use pdu::refusal::Refusal;
use station_message::message::StationMessage;
use std::fmt;

#[derive(Clone, Copy)]
pub(crate) struct FrameWords {
    pub place: Place,
    pub payload: Payload,
    // The family of the station's alerts.
    pub alerts: Alert,
}

impl fmt::Display for FrameWords {
    fn fmt<W: fmt::Write>(&self, f: &mut fmt::Formatter<W>) -> fmt::Result {
        let payload = self.payload;
        match self.place {
            Place::Name => {
                write!(f, "name, {}", Numbers::of(&Name, payload))?;
                write_bytes(&Name, payload, f)
            }
            Place::Message => {
                write!(f, "message, {}", Numbers::of(&StationMessage, payload))?;
                if StationMessage.number_in(payload) == 0 {
                    message_fields(payload, f)?;
                }
                write_bytes(&StationMessage, payload, f)
            }
            Place::Alert => {
                write!(f, "alert, {}", Numbers::of(&self.alerts, payload))?;
                if self.alerts.number_in(payload) == 0 {
                    alert_fields(&self.alerts, payload, f)?;
                }
                write_bytes(&self.alerts, payload, f)
            }
        }
    }
}

// What frame 0 of a message tells of its text. No call gives the checksum of a frame: hence the shift.
fn message_fields<W: fmt::Write>(payload: Payload, f: &mut fmt::Formatter<W>) -> fmt::Result {
    let head = StationMessage.head_in(payload);
    let priority = head.priority;
    let encoding = head.encoding;
    let length = StationMessage.length_in(&[payload]);
    let checksum = (payload >> 32) % 128;
    write!(
        f,
        ", priority {priority}, encoding {encoding}, length {length}, checksum {checksum}"
    )
}

// What frame 0 of an alert tells of its text. No call gives the check of a frame: hence the shift.
fn alert_fields<W: fmt::Write>(
    alerts: &Alert,
    payload: Payload,
    f: &mut fmt::Formatter<W>,
) -> fmt::Result {
    let head = alerts.head_in(payload);
    let encoding = head.encoding;
    let control = head.control_length;
    let length = alerts.length_in(&[payload]);
    let check = (payload >> 29) % 128;
    write!(
        f,
        ", encoding {encoding}, length {length}, check {check}, control length {control}"
    )
}

// The bytes of the text that a frame holds.
fn write_bytes<L: FamilyLayout, W: fmt::Write>(
    family: &L,
    payload: Payload,
    f: &mut fmt::Formatter<W>,
) -> fmt::Result {
    let held = bytes_held(family, payload);
    write!(f, ": {}", Quoted::<true>(held.as_slice()))
}

// The numbers that a frame's family tells of it.
#[derive(Clone, Copy)]
struct Numbers {
    number: Result<usize, Refusal>,
    last: Result<usize, Refusal>,
    sequence: Result<u8, Refusal>,
}

impl Numbers {
    fn of<F: Family>(family: &F, frame: Payload) -> Numbers {
        Numbers {
            number: family.number(frame),
            last: family.last_number(frame),
            sequence: family.sequence(frame),
        }
    }
}

impl fmt::Display for Numbers {
    fn fmt<W: fmt::Write>(&self, f: &mut fmt::Formatter<W>) -> fmt::Result {
        match self.number {
            Ok(number) => write!(f, "frame {number}")?,
            Err(refusal) => write!(f, "refused, {refusal}")?,
        }
        if let Ok(last) = self.last {
            write!(f, " of 0 to {last}")?;
        }
        if let Ok(sequence) = self.sequence {
            write!(f, ", sequence number {sequence}")?;
        }
        Ok(())
    }
}
