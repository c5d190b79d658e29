// A card and a monitor of one station, records for its three places, and known PDUs.
use alert::alert::{Alert, AlertHead};
use card::card::Card;
use card::station::Station;
use family::family::Family;
use family::text::{Record, Text};
use message::station::{CallSignExtension, Character, CountryCode, ShortName, StationId};
use monitor::answer::answer_number;
use monitor::monitor::Monitor;
use name::name::Name;
use pdu::refusal::Refusal;
use station_message::message::{MessageHead, StationMessage};
use transport::head::Head;

pub(crate) type StationCard = Card<Name, StationMessage, Alert>;

pub(crate) type StationMonitor = Monitor<Name, StationMessage, Alert>;

pub(crate) type StationRecord = Record<Head<(), MessageHead, AlertHead>>;

// The message TEST.
pub(crate) const TEST: [u8; 10] = [0x14, 0x00, 0x02, 0x41, 0x54, 0x45, 0x53, 0x54, 0x0D, 0x66];

pub(crate) fn new_monitor() -> Result<StationMonitor, Refusal> {
    Ok(Monitor::open(Name, StationMessage, Alert::new(9)?))
}

pub(crate) fn new_card(country: u16) -> Result<StationCard, Refusal> {
    let station = Station {
        id: StationId {
            country: CountryCode(country),
            reserved: 0,
            facility: 7,
        },
        short_name: ShortName {
            characters: (Character(22), Character(0), Character(1), Character(2)),
            extension: CallSignExtension::DashFm,
        },
    };
    Card::open(station, Name, StationMessage, Alert::new(9)?)
}

pub(crate) fn name(text: &[u8]) -> Result<StationRecord, Refusal> {
    Ok(Record {
        head: Head::Name(()),
        text: Text::new(text)?,
    })
}

pub(crate) fn message(text: &[u8]) -> Result<StationRecord, Refusal> {
    Ok(Record {
        head: Head::Message(MessageHead {
            priority: 0,
            encoding: 0,
        }),
        text: Text::new(text)?,
    })
}

pub(crate) fn alert(text: &[u8]) -> Result<StationRecord, Refusal> {
    Ok(Record {
        head: Head::Alert(AlertHead {
            encoding: 4,
            control_length: 3,
        }),
        text: Text::new(text)?,
    })
}

// The next PDU of a card.
pub(crate) fn drawn(card: &mut StationCard) -> Result<[u8; 10], Refusal> {
    let mut buffer = [0; 10];
    card.draw(&mut buffer)?;
    Ok(buffer)
}

// The number of the answer to an offer, or of its refusal. The numbers are what programs see; the
// tests pin them.
pub(crate) fn offered(monitor: &mut StationMonitor, bytes: &[u8]) -> u8 {
    monitor.offer(bytes).map_or_else(u8::from, answer_number)
}

// The length of the text shown, and the text with sevens behind it.
pub(crate) fn shown(monitor: &StationMonitor, number: u8) -> Result<(usize, [u8; 10]), Refusal> {
    let mut buffer = [7; 10];
    let length = monitor.copy_text(number, &mut buffer)?;
    Ok((length, buffer))
}
