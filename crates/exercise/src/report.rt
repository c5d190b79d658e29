// What a marker wants to see of a run, in order.
use crate::words::{LineWords, PieceWords, PlaceName};
use airing::stored::Stored;
use alert::alert::Alert;
use bench::bench::{Bench, Verdict};
use course::exercise::Entry;
use course::shown::shown_text;
use display::line::display_line;
use display::piece::{Part, Piece, pieces};
use hexadecimal::printed::Quoted;
use message::place::Place;
use name::name::Name;
use pdu::refusal::Refusal;
use station_message::message::StationMessage;
use std::fmt;
use transport::head::Head;

// The refusals of a PDU, in the order in which they are tested.
const REFUSALS: [Refusal; 8] = [
    Refusal::NotTenBytes,
    Refusal::CheckDiffers,
    Refusal::TypeNotZero,
    Refusal::ReservedMessage,
    Refusal::PayloadsTooLong,
    Refusal::OutOfRange,
    Refusal::LeftoverBitSet,
    Refusal::UnlawfulFrame,
];

#[derive(Clone, Copy)]
pub(crate) struct Report<'a> {
    pub bench: &'a Bench<Name, StationMessage, Alert>,
    pub log: &'a [Entry],
}

impl fmt::Display for Report<'_> {
    fn fmt<W: fmt::Write>(&self, f: &mut fmt::Formatter<W>) -> fmt::Result {
        self.stores(f)?;
        self.draws(f)?;
        self.refusals(f)?;
        self.shown(f)?;
        self.alert_and_line(f)?;
        self.counts(f)?;
        self.verdict(f)
    }
}

impl Report<'_> {
    fn stores<W: fmt::Write>(&self, f: &mut fmt::Formatter<W>) -> fmt::Result {
        writeln!(f, "Stored at the card, in this order:")?;
        for entry in self.log {
            let Entry::Stored {
                place,
                text,
                answer,
            } = entry
            else {
                continue;
            };
            let place = PlaceName(*place);
            let quoted = Quoted::<false>(text.as_slice());
            match answer {
                Ok(Stored::Changed) => writeln!(f, "  {place} {quoted}: changed")?,
                Ok(Stored::Unchanged) => writeln!(f, "  {place} {quoted}: unchanged")?,
                Err(refusal) => writeln!(f, "  {place} {quoted}: refused, {refusal}")?,
            }
        }
        Ok(())
    }

    fn draws<W: fmt::Write>(&self, f: &mut fmt::Formatter<W>) -> fmt::Result {
        let tally = self.bench.tally();
        let drawn = tally.drawn;
        let lost = tally.lost;
        let doubled = tally.doubled;
        let turned = tally.turned;
        writeln!(
            f,
            "PDUs: {drawn} drawn; {lost} lost, {doubled} doubled, {turned} with a bit turned."
        )
    }

    // The refusals, each with the numbers of the PDUs among those drawn.
    fn refusals<W: fmt::Write>(&self, f: &mut fmt::Formatter<W>) -> fmt::Result {
        writeln!(f, "Refused by the monitor:")?;
        let refused = |entry: &Entry| matches!(entry, Entry::Refused { .. });
        if !self.log.iter().any(refused) {
            return writeln!(f, "  nothing");
        }
        for refusal in REFUSALS {
            self.refused(refusal, f)?;
        }
        Ok(())
    }

    // One line for one refusal, if there was any.
    fn refused<W: fmt::Write>(&self, sought: Refusal, f: &mut fmt::Formatter<W>) -> fmt::Result {
        let mut numbers = self.log.iter().filter_map(|entry| match entry {
            Entry::Refused { drawn, refusal } if *refusal == sought => Some(*drawn),
            _ => None,
        });
        let Some(first) = numbers.next() else {
            return Ok(());
        };
        write!(f, "  {sought}: PDU {first}")?;
        for number in numbers {
            write!(f, ", {number}")?;
        }
        writeln!(f, "")
    }

    fn shown<W: fmt::Write>(&self, f: &mut fmt::Formatter<W>) -> fmt::Result {
        writeln!(f, "Newly shown by the monitor:")?;
        for entry in self.log {
            if let Entry::Shown { drawn, place, text } = entry {
                let place = PlaceName(*place);
                let quoted = Quoted::<false>(text.as_slice());
                writeln!(f, "  at PDU {drawn}: {place} {quoted}")?;
            }
        }
        Ok(())
    }

    // The alert's two pieces, and the line that a display shows.
    fn alert_and_line<W: fmt::Write>(&self, f: &mut fmt::Formatter<W>) -> fmt::Result {
        let monitor = self.bench.monitor();
        let message = shown_text(monitor, Place::Message);
        let message = match &message {
            Some(text) => text.as_slice(),
            None => &[],
        };
        let Some(alert) = shown_text(monitor, Place::Alert) else {
            writeln!(f, "No alert is shown.")?;
            let none = Piece::Text(Part {
                place: 0,
                bytes: &[],
            });
            return writeln!(f, "{}", LineWords(display_line(none, message)));
        };
        let Ok(Head::Alert(head)) = monitor.shown_head(u8::from(Place::Alert)) else {
            return Ok(());
        };
        let Ok((control, text)) = pieces(head, alert.as_slice()) else {
            return Ok(());
        };
        writeln!(f, "The alert's two pieces:")?;
        writeln!(f, "  {}", PieceWords(control))?;
        writeln!(f, "  {}", PieceWords(text))?;
        writeln!(f, "{}", LineWords(display_line(text, message)))
    }

    fn counts<W: fmt::Write>(&self, f: &mut fmt::Formatter<W>) -> fmt::Result {
        writeln!(f, "Newly shown, beside the changes at the card:")?;
        for (place, changes) in self.changes() {
            let shown = self.fresh_count(place).unwrap_or(0);
            let place = PlaceName(place);
            writeln!(f, "  {place}: {shown} of {changes}")?;
        }
        Ok(())
    }

    fn verdict<W: fmt::Write>(&self, f: &mut fmt::Formatter<W>) -> fmt::Result {
        match (self.bench.verdict(), self.is_complete()) {
            (Verdict::Covered, true) => writeln!(
                f,
                "Verdict: every change arrived, and nothing else was shown."
            )?,
            (Verdict::Covered, false) => writeln!(
                f,
                "Verdict: not every change arrived; nothing else was shown."
            )?,
            (Verdict::NotCovered, _) => {
                return writeln!(
                    f,
                    "Verdict: none. A turned PDU was accepted, or a place had more than three changes."
                );
            }
        }
        writeln!(
            f,
            "Proved of this run: each text newly shown at a place is that of a change stored there, in the order of the changes, and each change is shown at most once."
        )
    }

    // How often a store was a change, by place.
    fn changes(&self) -> [(Place, u32); 3] {
        let changes = self.bench.tally().changes;
        [
            (Place::Name, changes.name),
            (Place::Message, changes.message),
            (Place::Alert, changes.alert),
        ]
    }

    fn fresh_count(&self, place: Place) -> Result<u32, Refusal> {
        self.bench.monitor().fresh_count(u8::from(place))
    }

    // Whether every change arrived: as many texts were newly shown as there were changes.
    fn is_complete(&self) -> bool {
        self.changes().iter().all(|(place, changes)| self.fresh_count(*place) == Ok(*changes))
    }
}
