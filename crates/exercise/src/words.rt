// The words for parts of the report.
use display::line::{Line, Source};
use display::piece::Piece;
use hexadecimal::printed::{Digits, Quoted};
use message::place::Place;
use std::fmt;

#[derive(Clone, Copy)]
pub(crate) struct PlaceName(pub Place);

impl fmt::Display for PlaceName {
    fn fmt<W: fmt::Write>(&self, f: &mut fmt::Formatter<W>) -> fmt::Result {
        match self.0 {
            Place::Name => write!(f, "name"),
            Place::Message => write!(f, "message"),
            Place::Alert => write!(f, "alert"),
        }
    }
}

#[derive(Clone, Copy)]
pub(crate) struct PieceWords<'a>(pub Piece<'a>);

impl fmt::Display for PieceWords<'_> {
    fn fmt<W: fmt::Write>(&self, f: &mut fmt::Formatter<W>) -> fmt::Result {
        match self.0 {
            Piece::Control(part) => {
                let place = part.place;
                let digits = Digits(part.bytes);
                write!(f, "control data from byte {place}: {digits}")
            }
            Piece::Text(part) => {
                let place = part.place;
                let quoted = Quoted::<false>(part.bytes);
                write!(f, "text from byte {place}: {quoted}")
            }
        }
    }
}

#[derive(Clone, Copy)]
pub(crate) struct LineWords<'a>(pub Line<'a>);

impl fmt::Display for LineWords<'_> {
    fn fmt<W: fmt::Write>(&self, f: &mut fmt::Formatter<W>) -> fmt::Result {
        let quoted = Quoted::<false>(self.0.part.bytes);
        match self.0.source {
            Source::Alert => write!(f, "Display line, from the alert: {quoted}"),
            Source::Message => write!(f, "Display line, from the message: {quoted}"),
        }
    }
}
