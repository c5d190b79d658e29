// The texts of the exercise as records, and how long they are on air.
use alert::alert::{Alert, AlertHead};
use anyhow::bail;
use course::exercise::Texts;
use family::family::Family;
use family::text::{Record, Text};
use name::name::Name;
use station_message::message::{MessageHead, StationMessage};
use std::alloc::Global;

// Control data in front of an alert's text, in pairs of bytes.
const CONTROL_LENGTH: u8 = 3;

// The words of the four texts.
#[derive(Clone, Copy)]
pub(crate) struct TextWords<'a> {
    pub name: &'a str,
    pub message: &'a str,
    // What the message is changed to.
    pub changed: &'a str,
    pub alert: &'a str,
}

// The records of four texts: the name, the message, what it is changed to and the alert, with control data of zeros before it.
pub(crate) fn texts_of(
    heap: Global,
    words: TextWords,
) -> anyhow::Result<Texts<(), MessageHead, AlertHead>> {
    let plain = MessageHead {
        priority: 0,
        encoding: 0,
    };
    let head = AlertHead {
        encoding: 0,
        control_length: CONTROL_LENGTH,
    };
    let mut bytes = vec![in heap; 0; 2 * CONTROL_LENGTH as usize]?;
    bytes.extend_from_slice(words.alert.as_bytes())?;
    Ok(Texts {
        name: record_of("name", (), words.name.as_bytes())?,
        message: record_of("message", plain, words.message.as_bytes())?,
        alert: record_of("alert", head, bytes.as_slice())?,
        changed: record_of("changed message", plain, words.changed.as_bytes())?,
    })
}

fn record_of<H: Copy>(what: &str, head: H, bytes: &[u8]) -> anyhow::Result<Record<H>> {
    match Text::new(bytes) {
        Ok(text) => Ok(Record { head, text }),
        Err(refusal) => bail!("the {what} is refused, {refusal}"),
    }
}

// How many frames the longest of the texts has; a text that its family refuses is told.
pub(crate) fn longest_cut(
    alerts: Alert,
    texts: Texts<(), MessageHead, AlertHead>,
) -> anyhow::Result<u32> {
    let name = frames_of("name", &Name, &texts.name)?;
    let message = frames_of("message", &StationMessage, &texts.message)?;
    let changed = frames_of("changed message", &StationMessage, &texts.changed)?;
    let alert = frames_of("alert", &alerts, &texts.alert)?;
    Ok(name.max(message).max(changed).max(alert))
}

fn frames_of<F: Family>(what: &str, family: &F, record: &Record<F::Head>) -> anyhow::Result<u32> {
    match family.frame_count(record) {
        Ok(count) => Ok(u32::try_from(count)?),
        Err(refusal) => {
            let length = record.text.len;
            bail!("the {what} of {length} bytes is refused, {refusal}");
        }
    }
}
