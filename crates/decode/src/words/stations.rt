// The station ID and the short name.
use message::station::{CallSignExtension, ShortName, StationId};
use std::fmt;

#[derive(Clone, Copy)]
pub(crate) struct StationWords(pub StationId);

impl fmt::Display for StationWords {
    fn fmt<W: fmt::Write>(&self, f: &mut fmt::Formatter<W>) -> fmt::Result {
        let id = self.0;
        let code = id.country.0;
        match id.country.letters() {
            Some((first, second)) => write!(f, "station ID: country {first}{second} ({code})")?,
            None => write!(f, "station ID: country code {code}, no letters")?,
        }
        let facility = id.facility;
        write!(f, ", facility {facility}")?;
        let reserved = id.reserved;
        if reserved != 0 {
            write!(f, ", reserved bits {reserved:03b}")?;
        }
        Ok(())
    }
}

#[derive(Clone, Copy)]
pub(crate) struct ShortNameWords(pub ShortName);

impl fmt::Display for ShortNameWords {
    fn fmt<W: fmt::Write>(&self, f: &mut fmt::Formatter<W>) -> fmt::Result {
        let (a, b, c, d) = self.0.characters;
        write!(f, "short name: \"")?;
        for character in [a, b, c, d] {
            let symbol = character.symbol().unwrap_or('?');
            write!(f, "{symbol}")?;
        }
        match self.0.extension {
            CallSignExtension::Nothing => write!(f, "\""),
            CallSignExtension::DashFm => write!(f, "-FM\""),
        }
    }
}
