// The places of texts: each kind of text has its message number.
ghost use Rattle.std.specs.Prelude.{◌≡◌};
ghost use Rattle.message.specs.Place.{place_number, place_taken};

use pdu::refusal::Refusal;

#[derive(Clone, Copy, PartialEq, Eq, Debug)]
pub enum Place {
    Name,
    Message,
    Alert,
}

// The message number of the frames that a place takes.
impl From<Place> for u8 {
    ghost from_gives = { λ place number. number ≡ place_number place };

    fn from(place: Place) -> u8 {
        match place {
            Place::Name => 2,
            Place::Message => 5,
            Place::Alert => 9,
        }
    }
}

// The place whose frames have a message number.
impl TryFrom<u8> for Place {
    type Error = Refusal;

    ghost try_from_gives = { λ number place. place ≡ place_taken number };

    fn try_from(number: u8) -> Result<Place, Refusal> {
        match number {
            2 => Ok(Place::Name),
            5 => Ok(Place::Message),
            9 => Ok(Place::Alert),
            _ => Err(Refusal::HeadSettingOrPlace),
        }
    }
}
