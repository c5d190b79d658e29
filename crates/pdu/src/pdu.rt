// A PDU: ten bytes, copied and passed on whole.
ghost use Rattle.std.specs.Prelude.{◌≡◌, ◌^◌, ◌<◌};
ghost use Rattle.pdu.specs.Bytes.{Spells, taken, bytes_of};

use crate::refusal::Refusal;

#[derive(Clone, Copy, Debug)]
pub struct Pdu {
    pub bytes: [u8; 10],
}

// The PDU that a slice holds, if it has ten bytes.
impl TryFrom<&[u8]> for Pdu {
    type Error = Refusal;

    ghost try_from_gives = { λ slice pdu. pdu ≡ taken slice.now };

    fn try_from(slice: &[u8]) -> Result<Pdu, Refusal> {
        let bytes = <[u8; 10]>::try_from(slice).map_err(|_| Refusal::NotTenBytes)?;
        Ok(Pdu { bytes })
    }
}

// The ten bytes as one number, bit 0 highest.
impl From<Pdu> for u128 {
    ghost from_gives = { λ pdu n. Spells pdu.bytes n };

    fn from(pdu: Pdu) -> u128 {
        let [a, b, c, d, e, f, g, h, i, j] = pdu.bytes;
        u128::from_be_bytes([0, 0, 0, 0, 0, 0, a, b, c, d, e, f, g, h, i, j])
    }
}

impl Pdu {
    // The PDU that spells a number of 80 bits. Not TryFrom: every number here has 80 bits.
    pub(crate) fn from_number(n: u128) -> Pdu
        requires { n < 2 ^ 80 }
        ensures { result ≡ record { bytes = bytes_of n } }
    {
        let [_, _, _, _, _, _, a, b, c, d, e, f, g, h, i, j] = n.to_be_bytes();
        Pdu {
            bytes: [a, b, c, d, e, f, g, h, i, j],
        }
    }
}
