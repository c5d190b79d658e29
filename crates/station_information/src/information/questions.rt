// The questions about a station, which alter nothing. Each tells a part of its own type, so each is
// a method of its own.
ghost use Rattle.std.specs.Prelude.{◌≡◌, Err, ◌≢◌};
ghost use Rattle.station_information.specs.Hearings.{latest};
ghost use Rattle.station_information.specs.Latest.{station_id_in, short_name_in, leap_in, local_in, or_nothing, location_due, program_due};
ghost use Rattle.station_information.specs.Tells.{InEveryHistory};
ghost use Rattle.station_information.specs.Ranges.{HalvesInRange};

use crate::information::StationInformation;
use message::location::{Altitude, Angle, location};
use message::parameter::{LeapSeconds, LocalTime};
use message::service::AudioService;
use message::station::{ShortName, StationId};
use pdu::refusal::Refusal;

impl StationInformation {
    pub fn station_id(&self) -> Result<StationId, Refusal>
        ensures { InEveryHistory self.now (λ h. result ≡ or_nothing (latest station_id_in h)) }
    {
        self.station_id.ok_or(Refusal::NothingThere)
    }

    pub fn short_name(&self) -> Result<ShortName, Refusal>
        ensures { InEveryHistory self.now (λ h. result ≡ or_nothing (latest short_name_in h)) }
    {
        self.short_name.ok_or(Refusal::NothingThere)
    }

    pub fn leap_seconds(&self) -> Result<LeapSeconds, Refusal>
        ensures { InEveryHistory self.now (λ h. result ≡ or_nothing (latest leap_in h)) }
    {
        self.leap_seconds.ok_or(Refusal::NothingThere)
    }

    pub fn local_time(&self) -> Result<LocalTime, Refusal>
        ensures { InEveryHistory self.now (λ h. result ≡ or_nothing (latest local_in h)) }
    {
        self.local_time.ok_or(Refusal::NothingThere)
    }

    // Latitude, longitude and altitude, once both halves were heard.
    pub fn location(&self) -> Result<(Angle, Angle, Altitude), Refusal>
        ensures due { InEveryHistory self.now (λ h. result ≡ location_due h) }
        ensures in_range { InEveryHistory self.now (λ h. HalvesInRange h → result ≢ Err Refusal.OutOfRange) }
    {
        let latitude = self.latitude.ok_or(Refusal::NothingThere)?;
        let longitude = self.longitude.ok_or(Refusal::NothingThere)?;
        location(latitude, longitude)
    }

    // The audio service of one program.
    pub fn program(&self, number: u8) -> Result<AudioService, Refusal>
        ensures { InEveryHistory self.now (λ h. result ≡ program_due number h) }
    {
        let program = self
            .programs
            .get(usize::from(number))
            .ok_or(Refusal::OutOfRange)?;
        program.audio.ok_or(Refusal::NothingThere)
    }
}
