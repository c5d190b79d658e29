// The fields of a PDU between its type and its check.
ghost use Rattle.std.specs.Prelude.{◌≡◌, ◌%◌, ◌^◌, ◌<◌, true};
ghost use Rattle.pdu.specs.Fields.{IsRead, IsWritten, fields_of, tested, fit, unchecked_number};

use crate::pdu::Pdu;
use crate::refusal::Refusal;

#[derive(Clone, Copy, PartialEq, Eq, Debug)]
pub struct Fields {
    // Whether a second message follows the first.
    pub extension: bool,
    // The number of the first message. A u8: reserved numbers stand here too.
    pub number: u8,
    // The 58 bits from the first payload to the leftover bits.
    pub area: u64,
    pub reserved: bool,
    pub time_locked: bool,
    pub pair: u8,
}

// The fields of a PDU whose check is right and whose type is 0.
impl TryFrom<Pdu> for Fields {
    type Error = Refusal;

    ghost try_from_gives = { IsRead };

    fn try_from(pdu: Pdu) -> Result<Fields, Refusal> {
        let n = u128::from(pdu);
        test(n, pdu.check())?;
        Ok(Fields::of_number(n))
    }
}

// The PDU with these fields, type 0 and its check.
impl TryFrom<Fields> for Pdu {
    type Error = Refusal;

    ghost try_from_gives = { IsWritten };

    fn try_from(fields: Fields) -> Result<Pdu, Refusal> {
        if !fields.fits() {
            return Err(Refusal::OutOfRange);
        }
        let n = fields.unchecked_number();
        let check = Pdu::from_number(n).check();
        Ok(Pdu::from_number(n + u128::from(check)))
    }
}

impl Fields {
    // The fields of 80 bits. Not From: the type and the check are left out.
    fn of_number(n: u128) -> Fields
        ensures { result ≡ fields_of n }
    {
        Fields {
            extension: (n >> 78) % 2 == 1,
            number: ((n >> 74) % 16) as u8,
            area: ((n >> 16) % (1 << 58)) as u64,
            reserved: (n >> 15) % 2 == 1,
            time_locked: (n >> 14) % 2 == 1,
            pair: ((n >> 12) % 4) as u8,
        }
    }

    // Whether each field fits its bits.
    fn fits(&self) -> bool
        ensures { result ≡ fit self.now }
    {
        self.number < 16 && self.area < 1 << 58 && self.pair < 4
    }

    // The 80 bits of the PDU with a check of zero.
    fn unchecked_number(self) -> u128
        requires { fit self ≡ true }
        ensures value { result ≡ unchecked_number self }
        ensures no_check { result % 4096 ≡ 0 }
        ensures small { result < 2 ^ 79 }
    {
        let head = u128::from(self.extension) * 16 + u128::from(self.number);
        let flags = u128::from(self.reserved) * 2 + u128::from(self.time_locked);
        ((head * (1 << 58) + u128::from(self.area)) * 4 + flags) * (1 << 14)
            + u128::from(self.pair) * (1 << 12)
    }
}

// Tests 80 bits: first whether they carry this check, then whether their type is 0.
fn test(n: u128, check: u16) -> Result<(), Refusal>
    ensures { result ≡ tested n check }
{
    if n % 4096 != u128::from(check) {
        return Err(Refusal::CheckDiffers);
    }
    if (n >> 79) % 2 != 0 {
        return Err(Refusal::TypeNotZero);
    }
    Ok(())
}
