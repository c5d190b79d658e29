// The calls of both ends. A place is named by its message number, not as a Place, since a number
// that is no place's is refused too.
ghost use Rattle.std.specs.Prelude.{◌≡◌, [], ◌∷◌, Err};
ghost use Rattle.pdu.specs.declared.refusal.Refusal.{Refusal};
ghost use Rattle.family.specs.Texts.{record_view};
ghost use Rattle.transport.specs.Families.{families};
ghost use Rattle.card.specs.declared.station.Station.{Station};
ghost use Rattle.card.specs.Calls.{withdraw};
ghost use Rattle.card.specs.Due.{withdraw_answer};
ghost use Rattle.card.specs.Agrees.{Agrees as CardAgrees};
ghost use Rattle.monitor.specs.Calls.{forget};
ghost use Rattle.monitor.specs.Agrees.{Agrees as MonitorAgrees};
ghost use Rattle.air.specs.Runs.{card as card_step, monitor as monitor_step, monitor_calls};
ghost use Rattle.air.specs.Linked.{Linked, InEveryHistory, StoredSo, DrawnSo, Heard, SpoiltSo};

use crate::link::Link;
use airing::stored::Stored;
use card::card::Card;
use family::family::Family;
use family::text::Record;
use gatherer::answer::Answer;
use monitor::monitor::Monitor;
use pdu::pdu::Pdu;
use pdu::refusal::Refusal;
use transport::head::Head;

impl<N: Family, M: Family, E: Family> Link<N, M, E> {
    // A new card and a new monitor; nothing was drawn.
    pub fn new(card: Card<N, M, E>, monitor: Monitor<N, M, E>) -> Link<N, M, E>
        ensures { (n : N) (m : M) (e : E) (st : Station) → CardAgrees (families N.Family.meaning n M.Family.meaning m E.Family.meaning e) st [] card → MonitorAgrees (families N.Family.meaning n M.Family.meaning m E.Family.meaning e) [] monitor → Linked (families N.Family.meaning n M.Family.meaning m E.Family.meaning e) st [] result }
    {
        Link {
            card,
            monitor,
            pdu: None,
        }
    }

    // Stores a record at the card.
    pub fn store(
        &mut self,
        number: u8,
        record: Record<Head<N::Head, M::Head, E::Head>>,
    ) -> Result<Stored, Refusal>
        ensures unchanged { (x : Refusal) → result ≡ Err x → self.new ≡ self.old }
        ensures due { InEveryHistory N.Family.meaning M.Family.meaning E.Family.meaning self.old (λ f st a. StoredSo f st a number (record_view «record») result self.new) }
    {
        self.card.store(number, record)
    }

    // Withdraws the record of a place at the card.
    pub fn withdraw(&mut self, number: u8) -> Result<(), Refusal>
        ensures answer { result ≡ withdraw_answer number }
        ensures unchanged { (x : Refusal) → result ≡ Err x → self.new ≡ self.old }
        ensures linked { InEveryHistory N.Family.meaning M.Family.meaning E.Family.meaning self.old (λ f st a. Linked f st (card_step (withdraw number) ∷ a) self.new) }
    {
        self.card.withdraw(number)
    }

    // Draws the card's next PDU.
    pub fn draw(&mut self) -> Result<Pdu, Refusal>
        ensures { InEveryHistory N.Family.meaning M.Family.meaning E.Family.meaning self.old (λ f st a. DrawnSo f st a result self.new) }
    {
        let mut bytes = [0; 10];
        self.card.draw(&mut bytes)?;
        let pdu = Pdu { bytes };
        self.pdu = Some(pdu);
        Ok(pdu)
    }

    // Offers the PDU drawn last to the monitor; refused where none was drawn.
    pub fn hear(&mut self) -> Result<Option<Answer>, Refusal>
        ensures unchanged { (x : Refusal) → result ≡ Err x → self.new ≡ self.old }
        ensures due { InEveryHistory N.Family.meaning M.Family.meaning E.Family.meaning self.old (λ f st a. Heard f st a self.old.pdu result self.new) }
    {
        let pdu = self.pdu.ok_or(Refusal::NothingThere)?;
        self.monitor.offer(&pdu.bytes)
    }

    // Offers other bytes to the monitor, as the air may have spoilt them.
    pub fn hear_spoilt(&mut self, bytes: &[u8]) -> Result<Option<Answer>, Refusal>
        ensures unchanged { (x : Refusal) → result ≡ Err x → self.new ≡ self.old }
        ensures due { InEveryHistory N.Family.meaning M.Family.meaning E.Family.meaning self.old (λ f st a. SpoiltSo f st a bytes.now result self.new) }
    {
        self.monitor.offer(bytes)
    }

    // Has the monitor forget everything.
    pub fn forget(&mut self)
        ensures { InEveryHistory N.Family.meaning M.Family.meaning E.Family.meaning self.old (λ f st a. Linked f st (monitor_step forget ∷ a) self.new) }
    {
        self.monitor.forget();
    }

    // The monitor, for its questions.
    pub fn monitor(&self) -> &Monitor<N, M, E>
        ensures same { result.now ≡ self.now.monitor }
        ensures agrees { InEveryHistory N.Family.meaning M.Family.meaning E.Family.meaning self.now (λ f st a. MonitorAgrees f (monitor_calls a) result.now) }
    {
        &self.monitor
    }
}
