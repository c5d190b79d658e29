// The calls that change a monitor.
ghost use Rattle.std.specs.Prelude.{◌≡◌, true, List, [], ◌∷◌, Ok, Err};
ghost use Rattle.pdu.specs.declared.refusal.Refusal.{Refusal};
ghost use Rattle.gatherer.specs.Due.{refusal_in};
ghost use Rattle.transport.specs.Transport.{message_lawful, read_with};
ghost use Rattle.transport.specs.Families.{families, lawful_in};
ghost use Rattle.station_information.specs.Hearings.{Hearing};
ghost use Rattle.monitor.specs.Calls.{forget};
ghost use Rattle.monitor.specs.Agrees.{Holds, Agrees, families_of, InEveryHistory, HeardSo, OfferedSo};

use crate::monitor::Monitor;
use contents::contents::Contents;
use family::family::Family;
use gatherer::answer::Answer;
use gatherer::gatherer::Gatherer;
use message::message::Message;
use message::place::Place;
use pdu::refusal::Refusal;
use station_information::information::StationInformation;
use transport::families::Families;

impl<N: Family, M: Family, E: Family> Monitor<N, M, E> {
    // A monitor that has heard nothing.
    pub fn open(name: N, message: M, alert: E) -> Monitor<N, M, E>
        ensures { Agrees (families N.Family.meaning name M.Family.meaning message E.Family.meaning alert) [] result }
    {
        Monitor {
            name: Gatherer::new(name),
            message: Gatherer::new(message),
            alert: Gatherer::new(alert),
            information: StationInformation::new(),
        }
    }

    // Hears the PDU that the bytes are. They are refused as reading refuses them, an unlawful
    // frame last, and a refusal leaves everything as found.
    pub fn offer(&mut self, bytes: &[u8]) -> Result<Option<Answer>, Refusal>
        ensures refusal { refusal_in result ≡ refusal_in (read_with (lawful_in (families_of N.Family.meaning M.Family.meaning E.Family.meaning self.old)) bytes.now) }
        ensures unchanged { (x : Refusal) → result ≡ Err x → self.new ≡ self.old }
        ensures due { InEveryHistory N.Family.meaning M.Family.meaning E.Family.meaning self.old (λ f h. OfferedSo f h bytes.now result self.new) }
    {
        let contents = self.read(bytes)?;
        let answer = self.hear(contents.first);
        if let Some(second) = contents.second {
            self.hear(second);
        }
        Ok(answer)
    }

    // Drops everything that was heard, and keeps the families.
    pub fn forget(&mut self)
        ensures emptied { Agrees (families_of N.Family.meaning M.Family.meaning E.Family.meaning self.old) [] self.new }
        ensures agrees { InEveryHistory N.Family.meaning M.Family.meaning E.Family.meaning self.old (λ f h. Agrees f (forget ∷ h) self.new) }
    {
        self.name.forget();
        self.message.forget();
        self.alert.forget();
        self.information.forget();
    }

    // What the bytes say, by the families of the three places.
    fn read(&self, bytes: &[u8]) -> Result<Contents, Refusal>
        ensures { result ≡ read_with (lawful_in (families_of N.Family.meaning M.Family.meaning E.Family.meaning self.now)) bytes.now }
    {
        let families = Families {
            name: self.name.family(),
            message: self.message.family(),
            alert: self.alert.family(),
        };
        families.read(bytes)
    }

    // Hears one message of a PDU; a frame goes to its place. One that was read is lawful, so it is
    // not refused there.
    fn hear(&mut self, message: Message) -> Option<Answer>
        ensures { (n : N) (m : M) (e : E) (k : List Hearing) → Holds (families N.Family.meaning n M.Family.meaning m E.Family.meaning e) k self.old → message_lawful (lawful_in (families N.Family.meaning n M.Family.meaning m E.Family.meaning e)) message ≡ true → HeardSo (families N.Family.meaning n M.Family.meaning m E.Family.meaning e) k message result self.new }
    {
        self.information.hear(message);
        match message {
            Message::Frame(Place::Name, frame) => self.name.offer(frame).ok(),
            Message::Frame(Place::Message, frame) => self.message.offer(frame).ok(),
            Message::Frame(Place::Alert, frame) => self.alert.offer(frame).ok(),
            _ => None,
        }
    }
}
