// The questions, which alter nothing. A place is named by its message number, not as a Place, since
// a number that is no place's is refused too. The places are of three types with three types of
// head, so each question has its own match.
ghost use Rattle.std.specs.Prelude.{◌≡◌};
ghost use Rattle.transport.specs.Families.{lawful_in};
ghost use Rattle.station_information.specs.Tells.{Tells};
ghost use Rattle.monitor.specs.Calls.{hearings};
ghost use Rattle.monitor.specs.Due.{fresh_count_due, missing_sum_due};
ghost use Rattle.monitor.specs.Agrees.{InEveryHistory};
ghost use Rattle.monitor.specs.Shown.{HeadDue, TextDue};

use crate::monitor::Monitor;
use family::family::Family;
use message::place::Place;
use pdu::refusal::Refusal;
use station_information::information::StationInformation;
use transport::head::Head;

impl<N: Family, M: Family, E: Family> Monitor<N, M, E> {
    // The head of the record shown; refused while none is.
    pub fn shown_head(&self, number: u8) -> Result<Head<N::Head, M::Head, E::Head>, Refusal>
        ensures { InEveryHistory N.Family.meaning M.Family.meaning E.Family.meaning self.now (λ f h. HeadDue f h number result) }
    {
        match Place::try_from(number)? {
            Place::Name => Ok(Head::Name(self.name.shown_head()?)),
            Place::Message => Ok(Head::Message(self.message.shown_head()?)),
            Place::Alert => Ok(Head::Alert(self.alert.shown_head()?)),
        }
    }

    // Copies the text of the record shown to the front of the buffer, and gives its length.
    // Refused while none is shown, then where the buffer is too short; the buffer is then as found.
    pub fn copy_text(&self, number: u8, buffer: &mut [u8]) -> Result<usize, Refusal>
        ensures { InEveryHistory N.Family.meaning M.Family.meaning E.Family.meaning self.now (λ f h. TextDue f h number buffer.old result buffer.new) }
    {
        // A number that is no place's leaves the buffer as found.
        match Place::try_from(number)? {
            Place::Name => self.name.copy_text(buffer),
            Place::Message => self.message.copy_text(buffer),
            Place::Alert => self.alert.copy_text(buffer),
        }
    }

    // How often a record was newly shown since the opening or the last forget, up to the largest u32.
    pub fn fresh_count(&self, number: u8) -> Result<u32, Refusal>
        ensures { InEveryHistory N.Family.meaning M.Family.meaning E.Family.meaning self.now (λ f h. result ≡ fresh_count_due f h number) }
    {
        match Place::try_from(number)? {
            Place::Name => Ok(self.name.fresh_count()),
            Place::Message => Ok(self.message.fresh_count()),
            Place::Alert => Ok(self.alert.fresh_count()),
        }
    }

    // The sum of 2^i over the missing frames i, up to the last number; refused while frame 0 is missing.
    pub fn missing(&self, number: u8) -> Result<u64, Refusal>
        ensures { InEveryHistory N.Family.meaning M.Family.meaning E.Family.meaning self.now (λ f h. result ≡ missing_sum_due f h number) }
    {
        match Place::try_from(number)? {
            Place::Name => self.name.missing(),
            Place::Message => self.message.missing(),
            Place::Alert => self.alert.missing(),
        }
    }

    // What other messages told of the station, for its questions.
    pub fn information(&self) -> &StationInformation
        ensures { InEveryHistory N.Family.meaning M.Family.meaning E.Family.meaning self.now (λ f h. Tells (hearings (lawful_in f) h) result.now) }
    {
        &self.information
    }
}
