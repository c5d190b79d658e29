// Runs the exercise of the bench course, and prints what a marker wants to see.
#![tactic(auto)]

mod arguments;
mod report;
#[cfg(test)]
mod tests;
mod texts;
mod words;

use alert::alert::Alert;
use anyhow::bail;
use arguments::{Arguments, arguments_in};
use bench::bench::Bench;
use card::station::Station;
use course::exercise::{Entry, Exercise};
use fading::fade::FadingBox;
use message::station::{CallSignExtension, Character, CountryCode, ShortName, StationId};
use name::name::Name;
use report::Report;
use station_message::message::StationMessage;
use std::alloc::Global;
use std::env;
use texts::longest_cut;

// Alerts whose check divides by X^7 + X^3 + 1.
const ALERTS: Alert = Alert { generator: 9 };

// How often each frame is drawn in each half, at the least.
const ROUNDS: u32 = 8;

const USAGE: &str = "usage: exercise [--seed SEED] [NAME MESSAGE CHANGED_MESSAGE ALERT]
Stores a name, a message and an alert at the card, sends them through a fading
box to the monitor, sends one Store twice, changes the message halfway, and
prints what the monitor made of it. Without texts it runs on its own ones.
SEED, a number up to 4294967295, chooses the fades; it is 1 if left out.";

fn main(rt: HostRuntime) -> anyhow::Result<()> {
    run(&rt)
}

fn run(rt: &HostRuntime) -> anyhow::Result<()> {
    let words: Vec<String> = env::args(rt)?.skip(1).collect(rt.alloc())?;
    match words.as_slice() {
        [word] if word.as_str() == "--help" => {
            println!(rt; "{USAGE}")?;
            Ok(())
        }
        words => match arguments_in(rt.alloc(), words) {
            Ok(arguments) => perform(rt, arguments),
            Err(error) => {
                eprintln!(rt; "{USAGE}")?;
                Err(error)
            }
        },
    }
}

fn perform(rt: &HostRuntime, arguments: Arguments) -> anyhow::Result<()> {
    let (bench, log) = exercised(rt.alloc(), arguments)?;
    let report = Report {
        bench: &bench,
        log: log.as_slice(),
    };
    print!(rt; "{report}")?;
    Ok(())
}

// The bench after the exercise, and what was told of it.
fn exercised(
    heap: Global,
    arguments: Arguments,
) -> anyhow::Result<(Bench<Name, StationMessage, Alert>, Vec<Entry>)> {
    let texts = arguments.texts;
    // One turn of four for each frame of the longest text.
    let draws = longest_cut(ALERTS, texts)?.saturating_mul(4 * ROUNDS);
    let Ok(mut bench) = Bench::open(station(), Name, StationMessage, ALERTS) else {
        bail!("the station's fields are not allowed");
    };
    let mut log = Vec::new(heap);
    let mut exercise = Exercise {
        bench: &mut bench,
        fading: &mut FadingBox::new(arguments.seed),
        log: &mut log,
    };
    exercise.run(texts, draws)?;
    Ok((bench, log))
}

fn station() -> Station {
    Station {
        // The letters U and S, five bits each.
        id: StationId {
            country: CountryCode(20 * 32 + 18),
            reserved: 0,
            facility: 1234,
        },
        // DOLM-FM.
        short_name: ShortName {
            characters: (Character(3), Character(14), Character(11), Character(12)),
            extension: CallSignExtension::DashFm,
        },
    }
}
