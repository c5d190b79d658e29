// Prints the PDUs that carry a text, in hexadecimal, ready for decode.
#![tactic(auto)]

mod arguments;

use alert::alert::{Alert, AlertHead};
use anyhow::bail;
use arguments::{bytes_in, number_in};
use contents::contents::Contents;
use family::family::Family;
use family::text::{Record, Text};
use hexadecimal::printed::Digits;
use message::message::Message;
use message::place::Place;
use name::name::Name;
use pdu::pdu::Pdu;
use pdu::refusal::Refusal;
use station_message::message::{MessageHead, StationMessage};
use std::env;

// Alerts whose check divides by X^7 + X^3 + 1.
const ALERTS: Alert = Alert { generator: 9 };

const USAGE: &str = "usage: frames name SEQUENCE TEXT
       frames message SEQUENCE PRIORITY ENCODING TEXT
       frames alert SEQUENCE ENCODING CONTROL_LENGTH TEXT
Prints the PDUs that carry the text under the sequence number, a line each.
TEXT is taken byte by byte; after 'hex:' it is read as hexadecimal digits.";

fn main(rt: HostRuntime) -> anyhow::Result<()> {
    run(&rt)
}

fn run(rt: &HostRuntime) -> anyhow::Result<()> {
    let words: Vec<String> = env::args(rt)?.skip(1).collect(rt.alloc())?;
    match words.as_slice() {
        [help] if help.as_str() == "--help" => {
            println!(rt; "{USAGE}")?;
            Ok(())
        }
        [kind, sequence, text] if kind.as_str() == "name" => {
            let cut = cut_words(sequence, text);
            print_cut(rt, &Name, Place::Name, (), cut)
        }
        [kind, sequence, priority, encoding, text] if kind.as_str() == "message" => {
            let head = MessageHead {
                priority: number_in(priority.as_str(), "priority")?,
                encoding: number_in(encoding.as_str(), "encoding")?,
            };
            let cut = cut_words(sequence, text);
            print_cut(rt, &StationMessage, Place::Message, head, cut)
        }
        [kind, sequence, encoding, control, text] if kind.as_str() == "alert" => {
            let head = AlertHead {
                encoding: number_in(encoding.as_str(), "encoding")?,
                control_length: number_in(control.as_str(), "control length")?,
            };
            let cut = cut_words(sequence, text);
            print_cut(rt, &ALERTS, Place::Alert, head, cut)
        }
        _ => {
            eprintln!(rt; "{USAGE}")?;
            bail!("bad arguments")
        }
    }
}

// The words that every kind of text has.
#[derive(Clone, Copy)]
struct CutWords<'a> {
    sequence: &'a str,
    text: &'a str,
}

fn cut_words<'a>(sequence: &'a String, text: &'a String) -> CutWords<'a> {
    CutWords {
        sequence: sequence.as_str(),
        text: text.as_str(),
    }
}

// Prints the cut of a record.
fn print_cut<F: Family>(
    rt: &HostRuntime,
    family: &F,
    place: Place,
    head: F::Head,
    words: CutWords,
) -> anyhow::Result<()> {
    let sequence = number_in(words.sequence, "sequence number")?;
    let bytes = bytes_in(rt.alloc(), words.text)?;
    let text = accepted(rt, Text::new(bytes.as_slice()))?;
    let record = Record { head, text };
    let count = accepted(rt, family.frame_count(&record))?;
    for i in 0..count {
        let frame = accepted(rt, family.frame(&record, sequence, i))?;
        print_pdu(rt, place, frame)?;
    }
    Ok(())
}

fn print_pdu(rt: &HostRuntime, place: Place, frame: u64) -> anyhow::Result<()> {
    let contents = Contents {
        first: Message::Frame(place, frame),
        second: None,
        reserved: false,
        time_locked: false,
        pair: 0,
    };
    let pdu = accepted(rt, Pdu::try_from(contents))?;
    let digits = Digits(&pdu.bytes);
    println!(rt; "{digits}")?;
    Ok(())
}

// Tells a refusal, which ends the program.
fn accepted<T>(rt: &HostRuntime, answer: Result<T, Refusal>) -> anyhow::Result<T> {
    match answer {
        Ok(value) => Ok(value),
        Err(refusal) => {
            eprintln!(rt; "frames: the text is refused, {refusal}")?;
            bail!("refused")
        }
    }
}
