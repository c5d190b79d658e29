// Reading and writing with three families, one for each place: whether a frame is lawful is tested last.
ghost use Rattle.std.specs.Prelude.{◌≡◌, Ok};
ghost use Rattle.transport.specs.Transport.{second_lawful, contents_lawful, read_with, write_answer_with, buffer_after_with, encoded_with};
ghost use Rattle.transport.specs.Families.{lawful_to};

use contents::contents::Contents;
use family::family::Family;
use message::message::Message;
use message::place::Place;
use pdu::pdu::Pdu;
use pdu::refusal::Refusal;

// The families of a station's three places.
#[derive_where(Clone, Copy)]
pub struct Families<'a, N, M, E> {
    pub name: &'a N,
    pub message: &'a M,
    pub alert: &'a E,
}

impl<'a, N: Family, M: Family, E: Family> Families<'a, N, M, E> {
    // False only for an unlawful frame.
    fn is_message_lawful(self, message: Option<Message>) -> bool
        ensures { result ≡ second_lawful (lawful_to N.Family.meaning M.Family.meaning E.Family.meaning self.entry) message }
    {
        match message {
            Some(Message::Frame(Place::Name, frame)) => self.name.is_lawful(frame),
            Some(Message::Frame(Place::Message, frame)) => self.message.is_lawful(frame),
            Some(Message::Frame(Place::Alert, frame)) => self.alert.is_lawful(frame),
            _ => true,
        }
    }

    // Whether no frame of the contents is unlawful.
    pub fn is_lawful(self, contents: Contents) -> bool
        ensures { result ≡ contents_lawful (lawful_to N.Family.meaning M.Family.meaning E.Family.meaning self.entry) contents }
    {
        self.is_message_lawful(Some(contents.first)) && self.is_message_lawful(contents.second)
    }

    // What a slice of bytes says.
    pub fn read(self, bytes: &[u8]) -> Result<Contents, Refusal>
        ensures value { result ≡ read_with (lawful_to N.Family.meaning M.Family.meaning E.Family.meaning self.entry) bytes.now }
        ensures written_again { (c : Contents) → result ≡ Ok c → encoded_with (lawful_to N.Family.meaning M.Family.meaning E.Family.meaning self.entry) c ≡ Ok (record { bytes = bytes.now }) }
    {
        let contents = Contents::read(bytes)?;
        if self.is_lawful(contents) {
            Ok(contents)
        } else {
            Err(Refusal::UnlawfulFrame)
        }
    }

    // The PDU with these contents.
    pub fn encode(self, contents: Contents) -> Result<Pdu, Refusal>
        ensures value { result ≡ encoded_with (lawful_to N.Family.meaning M.Family.meaning E.Family.meaning self.entry) contents }
        ensures read_again { (p : Pdu) → result ≡ Ok p → read_with (lawful_to N.Family.meaning M.Family.meaning E.Family.meaning self.entry) p.bytes ≡ Ok contents }
    {
        let pdu = Pdu::try_from(contents)?;
        if self.is_lawful(contents) {
            Ok(pdu)
        } else {
            Err(Refusal::UnlawfulFrame)
        }
    }

    // Writes the PDU into a buffer of ten bytes; a refusal leaves the buffer as found. The
    // steps are those of Contents::write, but encode refuses an unlawful frame too.
    pub fn write(self, contents: Contents, buffer: &mut [u8]) -> Result<(), Refusal>
        ensures value { result ≡ write_answer_with (lawful_to N.Family.meaning M.Family.meaning E.Family.meaning self.entry) contents buffer.old }
        ensures after { buffer.new ≡ buffer_after_with (lawful_to N.Family.meaning M.Family.meaning E.Family.meaning self.entry) contents buffer.old }
        ensures read_again { result ≡ Ok tt → read_with (lawful_to N.Family.meaning M.Family.meaning E.Family.meaning self.entry) buffer.new ≡ Ok contents }
    {
        Pdu::try_from(&*buffer)?;
        let pdu = self.encode(contents)?;
        buffer.copy_from_slice(&pdu.bytes);
        Ok(())
    }
}
