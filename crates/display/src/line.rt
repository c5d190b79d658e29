// The line that a display shows.
ghost use Rattle.std.specs.Prelude.{◌≡◌};
ghost use Rattle.display.specs.Pieces.{piece_view};
ghost use Rattle.display.specs.Lines.{line_view, line_due};

use crate::piece::{Part, Piece};

// The buffer that a line is part of.
#[derive(Clone, Copy, PartialEq, Eq, Debug)]
pub enum Source {
    Alert,
    Message,
}

#[derive(Clone, Copy, Debug)]
pub struct Line<'a> {
    pub source: Source,
    // The bytes, with the place where they begin in the source.
    pub part: Part<'a>,
}

// The piece, if it is text and not empty, or else the message.
pub fn display_line<'a>(piece: Piece<'a>, message: &'a [u8]) -> Line<'a>
    ensures { line_view result ≡ line_due (piece_view piece.entry) message.now }
{
    match piece {
        Piece::Text(part) if !part.bytes.is_empty() => Line {
            source: Source::Alert,
            part,
        },
        _ => Line {
            source: Source::Message,
            part: Part {
                place: 0,
                bytes: message,
            },
        },
    }
}
