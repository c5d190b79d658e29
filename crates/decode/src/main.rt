// Says what PDUs say: a line of hexadecimal digits for each, from standard input.
#![tactic(auto)]

mod words;

use alert::alert::Alert;
use anyhow::bail;
use hexadecimal::text::{TextError, bytes_of};
use name::name::Name;
use station_message::message::StationMessage;
use std::env;
use transport::families::Families;
use words::Described;

// Alerts whose check divides by X^7 + X^3 + 1.
const ALERTS: Alert = Alert { generator: 9 };

const USAGE: &str = "usage: decode < FILE
Each line of standard input is one PDU: twenty hexadecimal digits, blanks allowed.
For each the program prints the line's number and what the PDU says, or why it is refused.";

fn main(rt: HostRuntime) -> anyhow::Result<()> {
    run(&rt)
}

fn run(rt: &HostRuntime) -> anyhow::Result<()> {
    let mut args = env::args(rt)?;
    let _program = args.next();
    if let Some(word) = args.next() {
        if word.as_str() == "--help" {
            println!(rt; "{USAGE}")?;
            return Ok(());
        }
        eprintln!(rt; "decode: no argument is taken, but '{word}' was given\n{USAGE}")?;
        bail!("bad arguments");
    }
    for (i, line) in rt.lines(rt.alloc()).enumerate() {
        let line = line?;
        if !line.trim().is_empty() {
            say(rt, i.saturating_add(1), line.as_str())?;
        }
    }
    Ok(())
}

// Says what one line says, or what is wrong with it.
fn say(rt: &HostRuntime, number: usize, line: &str) -> anyhow::Result<()> {
    let families = Families {
        name: &Name,
        message: &StationMessage,
        alert: &ALERTS,
    };
    match bytes_of(rt.alloc(), line) {
        Err(TextError::OutOfMemory) => return Err(TextError::OutOfMemory.into()),
        Err(wrong) => eprintln!(rt; "line {number}: {wrong}")?,
        Ok(bytes) => match families.read(bytes.as_slice()) {
            Ok(contents) => {
                let described = Described {
                    contents,
                    alerts: ALERTS,
                };
                println!(rt; "{number}: {described}")?
            }
            Err(refusal) => println!(rt; "{number}: refused, {refusal}")?,
        },
    }
    Ok(())
}
