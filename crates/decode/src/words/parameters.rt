// A parameter of the station.
use message::parameter::{LocalTime, Parameter};
use std::fmt;

#[derive(Clone, Copy)]
pub(crate) struct ParameterWords(pub Parameter);

impl fmt::Display for ParameterWords {
    fn fmt<W: fmt::Write>(&self, f: &mut fmt::Formatter<W>) -> fmt::Result {
        match self.0 {
            Parameter::Leap(leap) => {
                let pending = leap.pending;
                let current = leap.current;
                write!(f, "leap seconds: pending {pending}, current {current}")
            }
            Parameter::Local(local) => write!(f, "{}", LocalTimeWords(local)),
            Parameter::Unread { index, value } => {
                write!(f, "parameter {index}, not read: 0x{value:04X}")
            }
        }
    }
}

#[derive(Clone, Copy)]
struct LocalTimeWords(LocalTime);

impl fmt::Display for LocalTimeWords {
    fn fmt<W: fmt::Write>(&self, f: &mut fmt::Formatter<W>) -> fmt::Result {
        let local = self.0;
        let minutes = local.offset.0;
        write!(
            f,
            "local time: {minutes} minutes from UTC, daylight saving time: "
        )?;
        match local.schedule {
            0 => write!(f, "no schedule")?,
            1 => write!(f, "schedule of the USA and Canada")?,
            2 => write!(f, "schedule of the European Union")?,
            other => write!(f, "schedule {other}")?,
        }
        if local.practised_locally {
            write!(f, ", practised locally")?;
        }
        if local.in_effect {
            write!(f, ", in effect")?;
        }
        Ok(())
    }
}
