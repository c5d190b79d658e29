// What a PDU says, in words and numbers.
mod frames;
mod locations;
mod parameters;
mod services;
mod stations;

use alert::alert::Alert;
use contents::contents::Contents;
use frames::FrameWords;
use locations::LocationWords;
use message::message::Message;
use parameters::ParameterWords;
use services::ServiceWords;
use stations::{ShortNameWords, StationWords};
use std::fmt;

#[derive(Clone, Copy)]
pub struct Described {
    pub contents: Contents,
    // The family of the station's alerts.
    pub alerts: Alert,
}

impl fmt::Display for Described {
    fn fmt<W: fmt::Write>(&self, f: &mut fmt::Formatter<W>) -> fmt::Result {
        let contents = self.contents;
        write!(f, "{}", self.words_of(contents.first))?;
        if let Some(second) = contents.second {
            write!(f, "; {}", self.words_of(second))?;
        }
        if contents.time_locked {
            write!(f, "; time locked")?;
        }
        if contents.reserved {
            write!(f, "; reserved bit set")?;
        }
        let pair = contents.pair;
        if pair != 0 {
            write!(f, "; frame number bits {pair:02b}")?;
        }
        Ok(())
    }
}

impl Described {
    fn words_of(&self, message: Message) -> MessageWords {
        MessageWords {
            message,
            alerts: self.alerts,
        }
    }
}

#[derive(Clone, Copy)]
struct MessageWords {
    message: Message,
    alerts: Alert,
}

impl fmt::Display for MessageWords {
    fn fmt<W: fmt::Write>(&self, f: &mut fmt::Formatter<W>) -> fmt::Result {
        match self.message {
            Message::StationId(id) => write!(f, "{}", StationWords(id)),
            Message::ShortName(name) => write!(f, "{}", ShortNameWords(name)),
            Message::Frame(place, payload) => {
                let frame = FrameWords {
                    place,
                    payload,
                    alerts: self.alerts,
                };
                write!(f, "{frame}")
            }
            Message::Location(half) => write!(f, "{}", LocationWords(half)),
            Message::Service(service) => write!(f, "{}", ServiceWords(service)),
            Message::Parameter(parameter) => write!(f, "{}", ParameterWords(parameter)),
            Message::Universal(payload) => {
                write!(
                    f,
                    "universal short name or slogan, not read: 0x{payload:015X}"
                )
            }
        }
    }
}
