// Contents read from ten bytes and written to them.
ghost use Rattle.std.specs.Prelude.{◌≡◌, Ok};
ghost use Rattle.contents.specs.Contents.{IsDecoded, IsEncoded, encoded, read_from, write_answer, buffer_after};

use crate::contents::Contents;
use pdu::fields::Fields;
use pdu::pdu::Pdu;
use pdu::refusal::Refusal;

// What a PDU says.
impl TryFrom<Pdu> for Contents {
    type Error = Refusal;

    ghost try_from_gives = { IsDecoded };

    fn try_from(pdu: Pdu) -> Result<Contents, Refusal> {
        let fields = Fields::try_from(pdu)?;
        Contents::from_fields(fields)
    }
}

// The PDU with these contents.
impl TryFrom<Contents> for Pdu {
    type Error = Refusal;

    ghost try_from_gives = { IsEncoded };

    fn try_from(contents: Contents) -> Result<Pdu, Refusal> {
        let fields = contents.fields()?;
        Pdu::try_from(fields)
    }
}

impl Contents {
    // What a slice of bytes says; ten are read.
    pub fn read(bytes: &[u8]) -> Result<Contents, Refusal>
        ensures value { result ≡ read_from bytes.now }
        ensures written_again { (c : Contents) → result ≡ Ok c → encoded c ≡ Ok (record { bytes = bytes.now }) }
    {
        let pdu = Pdu::try_from(bytes)?;
        Contents::try_from(pdu)
    }

    // Writes the PDU into a buffer of ten bytes; a refusal leaves the buffer as found.
    pub fn write(self, buffer: &mut [u8]) -> Result<(), Refusal>
        ensures value { result ≡ write_answer self buffer.old }
        ensures after { buffer.new ≡ buffer_after self buffer.old }
        ensures read_again { result ≡ Ok tt → read_from buffer.new ≡ Ok self }
    {
        Pdu::try_from(&*buffer)?;
        let pdu = Pdu::try_from(self)?;
        buffer.copy_from_slice(&pdu.bytes);
        Ok(())
    }
}
