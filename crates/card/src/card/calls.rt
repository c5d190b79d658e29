// The calls of a card. A place is named by its message number, not as a Place, since a number that
// is no place's is refused too. The places are of three types, so each such call has its own match.
ghost use Rattle.std.specs.Prelude.{◌≡◌, ◌∷◌, length, Ok, Err, ◌≢◌};
ghost use Rattle.pdu.specs.declared.refusal.Refusal.{Refusal};
ghost use Rattle.pdu.specs.declared.refusal.Refusal.TheVariants.{NotTenBytes};
ghost use Rattle.family.specs.Texts.{record_view};
ghost use Rattle.transport.specs.Families.{families};
ghost use Rattle.card.specs.Calls.{withdraw};
ghost use Rattle.card.specs.Due.{withdraw_answer};
ghost use Rattle.card.specs.Agrees.{Agrees, InEveryHistory, Opened, StoredSo, DrawnSo};

use crate::card::{Card, Turn};
use crate::station::Station;
use airing::place::Place as PlaceOnAir;
use airing::stored::Stored;
use family::family::Family;
use family::text::Record;
use message::message::Message;
use message::place::Place;
use pdu::refusal::Refusal;
use transport::head::Head;

impl<N: Family, M: Family, E: Family> Card<N, M, E> {
    // A card with no record; a field of the station that is out of range is refused.
    pub fn open(station: Station, name: N, message: M, alert: E) -> Result<Card<N, M, E>, Refusal>
    where
        N: Drop,
        M: Drop,
        E: Drop,
        ensures { Opened (families N.Family.meaning name M.Family.meaning message E.Family.meaning alert) station result }
    {
        Message::StationId(station.id).payload()?;
        Message::ShortName(station.short_name).payload()?;
        Ok(Card {
            station,
            name: PlaceOnAir::new(name),
            message: PlaceOnAir::new(message),
            alert: PlaceOnAir::new(alert),
            turn: Turn::Station,
        })
    }

    // Puts a record on air at the place with this message number. A number that is no place's and
    // a head of another place are refused, then what the place's family refuses; a refusal leaves
    // everything as found.
    pub fn store(
        &mut self,
        number: u8,
        record: Record<Head<N::Head, M::Head, E::Head>>,
    ) -> Result<Stored, Refusal>
        ensures unchanged { (e : Refusal) → result ≡ Err e → self.new ≡ self.old }
        ensures due { InEveryHistory N.Family.meaning M.Family.meaning E.Family.meaning self.old (λ f st h. StoredSo f st h number (record_view «record») result self.new) }
    {
        let text = record.text;
        match (Place::try_from(number)?, record.head) {
            (Place::Name, Head::Name(head)) => self.name.store(Record { head, text }),
            (Place::Message, Head::Message(head)) => self.message.store(Record { head, text }),
            (Place::Alert, Head::Alert(head)) => self.alert.store(Record { head, text }),
            _ => Err(Refusal::HeadSettingOrPlace),
        }
    }

    // Takes the record of the place with this message number off air, and keeps it.
    pub fn withdraw(&mut self, number: u8) -> Result<(), Refusal>
        ensures answer { result ≡ withdraw_answer number }
        ensures unchanged { (e : Refusal) → result ≡ Err e → self.new ≡ self.old }
        ensures agrees { InEveryHistory N.Family.meaning M.Family.meaning E.Family.meaning self.old (λ f st h. Agrees f st (withdraw number ∷ h) self.new) }
    {
        match Place::try_from(number)? {
            Place::Name => self.name.withdraw(),
            Place::Message => self.message.withdraw(),
            Place::Alert => self.alert.withdraw(),
        }
        Ok(())
    }

    // Writes the next PDU into a buffer of ten bytes. A buffer of another length is refused, and
    // then the card and the buffer are as found.
    pub fn draw(&mut self, buffer: &mut [u8]) -> Result<(), Refusal>
        ensures refused { (length buffer.old ≢ 10) → (result ≡ Err NotTenBytes) × (buffer.new ≡ buffer.old) × (self.new ≡ self.old) }
        ensures due { InEveryHistory N.Family.meaning M.Family.meaning E.Family.meaning self.old (λ f st h. DrawnSo f st h buffer.old result buffer.new self.new) }
    {
        if buffer.len() != 10 {
            return Err(Refusal::NotTenBytes);
        }
        let contents = self.next_contents();
        contents.write(buffer)
    }
}
