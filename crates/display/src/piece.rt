// The two pieces of an alert: its control data, and the text for people.
ghost use Rattle.std.specs.Prelude.{◌≡◌};
ghost use Rattle.display.specs.Pieces.{pieces_view, pieces_due};

use alert::alert::AlertHead;
use alert::alert_family::require_lawful_alert;
use pdu::refusal::Refusal;

// Bytes of a buffer, with the place where they begin in it.
#[derive(Clone, Copy, Debug)]
pub struct Part<'a> {
    pub place: usize,
    pub bytes: &'a [u8],
}

#[derive(Clone, Copy, Debug)]
pub enum Piece<'a> {
    Control(Part<'a>),
    Text(Part<'a>),
}

// The control data and then the text of an alert with this head and these bytes; an unlawful alert is refused.
pub fn pieces<'a>(head: AlertHead, bytes: &'a [u8]) -> Result<(Piece<'a>, Piece<'a>), Refusal>
    ensures { pieces_view result ≡ pieces_due head bytes.now }
{
    require_lawful_alert(head, bytes.len())?;
    let place = 2 * usize::from(head.control_length);
    let (control, text) = bytes.split_at(place);
    let control = Part {
        place: 0,
        bytes: control,
    };
    let text = Part { place, bytes: text };
    Ok((Piece::Control(control), Piece::Text(text)))
}
