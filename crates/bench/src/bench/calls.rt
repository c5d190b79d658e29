// The calls of a bench.
ghost use Rattle.std.specs.Prelude.{◌≡◌, [], Some, Ok, Err};
ghost use Rattle.pdu.specs.declared.refusal.Refusal.{Refusal};
ghost use Rattle.family.specs.Texts.{record_view};
ghost use Rattle.transport.specs.Families.{families};
ghost use Rattle.card.specs.declared.station.Station.{Station};
ghost use Rattle.card.specs.Agrees.{Agrees as CardAgrees};
ghost use Rattle.monitor.specs.Agrees.{Agrees as MonitorAgrees};
ghost use Rattle.air.specs.Linked.{InEveryHistory as InEveryLink};
ghost use Rattle.bench.specs.Counts.{changes_after, tally_after_store, tally_after_pdu, turned_counted, nothing_counted};
ghost use Rattle.bench.specs.Ran.{Ran, InEveryHistory, Opened, StoredSo, SentSo, PassedSo};

use crate::bench::{Bench, CopyAnswer, Passage};
use crate::tally::{Changes, Tally};
use air::link::Link;
use airing::stored::Stored;
use card::card::Card;
use card::station::Station;
use fading::fade::{Fade, with_bit_turned};
use family::family::Family;
use family::text::Record;
use message::place::Place;
use monitor::monitor::Monitor;
use pdu::pdu::Pdu;
use pdu::refusal::Refusal;
use transport::head::Head;

impl<N: Family, M: Family, E: Family> Bench<N, M, E> {
    // A card and a monitor with the same families; a field of the station that is out of range is refused.
    pub fn open(station: Station, name: N, message: M, alert: E) -> Result<Bench<N, M, E>, Refusal>
    where
        N: Copy,
        M: Copy,
        E: Copy,
        ensures { Opened (families N.Family.meaning name M.Family.meaning message E.Family.meaning alert) station result }
    {
        let card = Card::open(station, name, message, alert)?;
        Ok(Bench::new(card, Monitor::open(name, message, alert)))
    }

    // A new card and a new monitor; nothing is counted yet.
    pub fn new(card: Card<N, M, E>, monitor: Monitor<N, M, E>) -> Bench<N, M, E>
        ensures ran { (n : N) (m : M) (e : E) (st : Station) → CardAgrees (families N.Family.meaning n M.Family.meaning m E.Family.meaning e) st [] card → MonitorAgrees (families N.Family.meaning n M.Family.meaning m E.Family.meaning e) [] monitor → Ran (families N.Family.meaning n M.Family.meaning m E.Family.meaning e) st [] result }
        ensures tally { result.tally ≡ nothing_counted }
    {
        Bench {
            link: Link::new(card, monitor),
            tally: Tally::default(),
        }
    }

    // Stores a record at the card, and counts a change. A refusal leaves everything as found. A place is named by its message number, not as a Place, since a number that is no place's is refused too.
    pub fn store(
        &mut self,
        number: u8,
        record: Record<Head<N::Head, M::Head, E::Head>>,
    ) -> Result<Stored, Refusal>
        ensures unchanged { (x : Refusal) → result ≡ Err x → self.new ≡ self.old }
        ensures due { InEveryHistory N.Family.meaning M.Family.meaning E.Family.meaning self.old (λ f st a. StoredSo f st a number (record_view «record») result self.new) }
        ensures tally { self.new.tally ≡ tally_after_store number result self.old.tally }
    {
        let answer = self.link.store(number, record);
        self.tally.changes.count(number, answer);
        answer
    }

    // Draws a PDU and sends it through a fade to the monitor.
    pub fn pass(&mut self, fade: Fade) -> Result<Passage, Refusal>
        ensures due { InEveryHistory N.Family.meaning M.Family.meaning E.Family.meaning self.old (λ f st a. PassedSo f st a fade result self.new) }
        ensures tally { (p : Passage) → result ≡ Ok p → self.new.tally ≡ tally_after_pdu fade p.first self.old.tally }
    {
        let pdu = self.link.draw()?;
        let (first, second) = self.send(pdu, fade);
        self.tally.count(fade, first);
        Ok(Passage {
            pdu,
            fade,
            first,
            second,
        })
    }

    // Has the monitor hear what a fade leaves of the PDU drawn last.
    fn send(&mut self, pdu: Pdu, fade: Fade) -> (CopyAnswer, CopyAnswer)
        ensures sent { InEveryLink N.Family.meaning M.Family.meaning E.Family.meaning self.old.link (λ f st a. self.old.link.pdu ≡ Some pdu → SentSo f st a pdu.bytes fade result.0 result.1 self.new.link) }
        ensures tally { self.new.tally ≡ self.old.tally }
    {
        match fade {
            Fade::Heard => (Some(self.link.hear()), None),
            Fade::Lost => (None, None),
            Fade::Doubled => {
                let first = self.link.hear();
                let second = self.link.hear();
                (Some(first), Some(second))
            }
            Fade::Turned(bit) => {
                let turned = with_bit_turned(pdu, bit);
                (Some(self.link.hear_spoilt(&turned.bytes)), None)
            }
        }
    }
}

impl Tally {
    // Counts a PDU with its fade, and a turned one that was accepted.
    fn count(&mut self, fade: Fade, first: CopyAnswer)
        ensures { self.new ≡ tally_after_pdu fade first self.old }
    {
        self.drawn = self.drawn.saturating_add(1);
        match fade {
            Fade::Heard => {}
            Fade::Lost => self.lost = self.lost.saturating_add(1),
            Fade::Doubled => self.doubled = self.doubled.saturating_add(1),
            Fade::Turned(_) => self.count_turned(first),
        }
    }

    fn count_turned(&mut self, first: CopyAnswer)
        ensures { self.new ≡ turned_counted first self.old }
    {
        self.turned = self.turned.saturating_add(1);
        if let Some(Ok(_)) = first {
            self.turned_accepted = self.turned_accepted.saturating_add(1);
        }
    }
}

impl Changes {
    // Counts a store at a message number, if it was a change.
    fn count(&mut self, number: u8, answer: Result<Stored, Refusal>)
        ensures { self.new ≡ changes_after number answer self.old }
    {
        let (Ok(place), Ok(Stored::Changed)) = (Place::try_from(number), answer) else {
            return;
        };
        match place {
            Place::Name => self.name = self.name.saturating_add(1),
            Place::Message => self.message = self.message.saturating_add(1),
            Place::Alert => self.alert = self.alert.saturating_add(1),
        }
    }
}
