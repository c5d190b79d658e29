// The calls that change what is kept of a station.
ghost use Rattle.std.specs.Prelude.{◌≡◌, ℕ, ◌<◌, true, [], ◌∷◌, None};
ghost use Rattle.station_information.specs.Hearings.{heard, forgot};
ghost use Rattle.station_information.specs.Latest.{is_unread};
ghost use Rattle.station_information.specs.Tells.{audio_at, Tells, InEveryHistory, Updated};

use crate::information::{Program, StationInformation};
use message::location::LocationHalf;
use message::message::Message;
use message::parameter::Parameter;
use message::service::{AudioService, Service};

impl StationInformation {
    // Nothing was heard.
    pub fn new() -> StationInformation
        ensures { Tells [] result }
    {
        StationInformation {
            station_id: None,
            short_name: None,
            latitude: None,
            longitude: None,
            leap_seconds: None,
            local_time: None,
            programs: no_programs(),
        }
    }

    // Keeps what a message tells, in place of what an earlier one told of the same.
    pub fn hear(&mut self, message: Message)
        ensures tells { InEveryHistory self.old (λ h. Tells (heard message ∷ h) self.new) }
        ensures unchanged { is_unread message ≡ true → self.new ≡ self.old }
    {
        match message {
            Message::StationId(station) => self.station_id = Some(station),
            Message::ShortName(name) => self.short_name = Some(name),
            Message::Location(half) => self.hear_half(half),
            Message::Service(service) => self.hear_service(service),
            Message::Parameter(parameter) => self.hear_parameter(parameter),
            Message::Frame(_, _) | Message::Universal(_) => {}
        }
    }

    // Everything is empty again.
    pub fn forget(&mut self)
        ensures emptied { Tells [] self.new }
        ensures tells { InEveryHistory self.old (λ h. Tells (forgot ∷ h) self.new) }
    {
        *self = StationInformation::new();
    }

    // One half of the location.
    fn hear_half(&mut self, half: LocationHalf)
        ensures { Updated (Message.Location half) self.old self.new }
    {
        match half {
            LocationHalf::Latitude(latitude) => self.latitude = Some(latitude),
            LocationHalf::Longitude(longitude) => self.longitude = Some(longitude),
        }
    }

    // An audio service; of a data service nothing is kept.
    fn hear_service(&mut self, service: Service)
        ensures updated { Updated (Message.Service service) self.old self.new }
        ensures unchanged { is_unread (Message.Service service) ≡ true → self.new ≡ self.old }
    {
        match service {
            Service::Audio(audio) => self.hear_audio(audio),
            Service::Data(_) => {}
        }
    }

    // The entry of one program; no message that was read has a number above 63.
    fn hear_audio(&mut self, audio: AudioService)
        ensures { Updated (Message.Service (Service.Audio audio)) self.old self.new }
    {
        let number = usize::from(audio.program);
        // By index: with get_mut the proof of the table after the loan did not close.
        if number < 64 {
            self.programs[number] = Program { audio: Some(audio) };
        }
    }

    // Leap seconds or the local time.
    fn hear_parameter(&mut self, parameter: Parameter)
        ensures updated { Updated (Message.Parameter parameter) self.old self.new }
        ensures unchanged { is_unread (Message.Parameter parameter) ≡ true → self.new ≡ self.old }
    {
        match parameter {
            Parameter::Leap(leap) => self.leap_seconds = Some(leap),
            Parameter::Local(local) => self.local_time = Some(local),
            Parameter::Unread { .. } => {}
        }
    }
}

// The table of programs while nothing was heard of any.
fn no_programs() -> [Program; 64]
    ensures { (n : ℕ) → n < 64 → audio_at n result ≡ None }
{
    [Program { audio: None }; 64]
}
