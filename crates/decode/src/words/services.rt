// A service that the station offers.
use message::service::Service;
use std::fmt;

#[derive(Clone, Copy)]
pub(crate) struct ServiceWords(pub Service);

impl fmt::Display for ServiceWords {
    fn fmt<W: fmt::Write>(&self, f: &mut fmt::Formatter<W>) -> fmt::Result {
        match self.0 {
            Service::Audio(audio) => {
                let program = audio.program;
                let access = if audio.restricted {
                    "restricted"
                } else {
                    "public"
                };
                let kind = audio.program_type;
                let sound = audio.sound;
                write!(
                    f,
                    "audio service: program {program}, {access}, type {kind}, sound {sound}"
                )?;
                let reserved = audio.reserved;
                if reserved != 0 {
                    write!(f, ", reserved bits {reserved:05b}")?;
                }
                Ok(())
            }
            Service::Data(unread) => write!(f, "data service, not read: 0x{unread:07X}"),
        }
    }
}
