// The turns of a card: the station PDU and the three places, each in its turn.
ghost use Rattle.std.specs.Prelude.{◌≡◌, ◌+◌, ◌%◌, ◌∷◌};
ghost use Rattle.card.specs.Calls.{draw};
ghost use Rattle.card.specs.Due.{contents_of, frame_or_station, frame_message, contents_due};
ghost use Rattle.card.specs.Agrees.{Agrees, InEveryHistory, FrameTaken, turn_number};

use crate::card::{Card, Turn};
use contents::contents::Contents;
use family::family::{Family, Payload};
use message::message::Message;
use message::place::Place;

impl<N: Family, M: Family, E: Family> Card<N, M, E> {
    // What the next PDU says; the turn passes on.
    pub(super) fn next_contents(&mut self) -> Contents
        ensures due { InEveryHistory N.Family.meaning M.Family.meaning E.Family.meaning self.old (λ f st h. result ≡ contents_due f st h) }
        ensures agrees { InEveryHistory N.Family.meaning M.Family.meaning E.Family.meaning self.old (λ f st h. Agrees f st (draw 10 ∷ h) self.new) }
    {
        let frame = self.next_frame();
        self.turn = self.turn.next();
        self.contents_with(frame)
    }

    // The frame of the place whose turn it is, if a record is on air there.
    fn next_frame(&mut self) -> Option<Message>
        ensures taken { InEveryHistory N.Family.meaning M.Family.meaning E.Family.meaning self.old (λ f st h. FrameTaken f h result self.new) }
        ensures turn { self.new.turn ≡ self.old.turn }
        ensures station { self.new.station ≡ self.old.station }
    {
        match self.turn {
            Turn::Station => None,
            Turn::Name => frame_message(Place::Name, self.name.draw()),
            Turn::Message => frame_message(Place::Message, self.message.draw()),
            Turn::Alert => frame_message(Place::Alert, self.alert.draw()),
        }
    }

    // The frame, or the station PDU where there is none: the short name, then the station ID.
    fn contents_with(&self, frame: Option<Message>) -> Contents
        ensures { result ≡ frame_or_station self.now.station frame }
    {
        match frame {
            Some(frame) => contents_of(frame, None),
            None => contents_of(
                Message::ShortName(self.station.short_name),
                Some(Message::StationId(self.station.id)),
            ),
        }
    }
}

impl Turn {
    fn next(self) -> Turn
        ensures { turn_number result ≡ (turn_number self + 1) % 4 }
    {
        match self {
            Turn::Station => Turn::Name,
            Turn::Name => Turn::Message,
            Turn::Message => Turn::Alert,
            Turn::Alert => Turn::Station,
        }
    }
}

// A frame, if there is one, as a message of its place.
fn frame_message(place: Place, frame: Option<Payload>) -> Option<Message>
    ensures { result ≡ frame_message place frame }
{
    frame.map(|frame| Message::Frame(place, frame))
}

// Contents with one or two messages; all other bits are zero.
fn contents_of(first: Message, second: Option<Message>) -> Contents
    ensures { result ≡ contents_of first second }
{
    Contents {
        first,
        second,
        reserved: false,
        time_locked: false,
        pair: 0,
    }
}
