// Message 6: a service that the station carries.
ghost use Rattle.std.specs.Prelude.{◌≡◌, ℕ, ◌^◌, ◌<◌, true, Ok};
ghost use Rattle.message.specs.Results.{in_range};
ghost use Rattle.message.specs.Service.{audio_of, service_of, service_in_range, service_packed};

use crate::bits::field_of;
use pdu::refusal::Refusal;

#[derive(Clone, Copy)]
pub struct AudioService {
    pub restricted: bool,
    // 0 is the main program; six bits.
    pub program: u8,
    pub program_type: u8,
    // Five reserved bits, kept as they are.
    pub reserved: u8,
    // How the sound was processed; five bits.
    pub sound: u8,
}

#[derive(Clone, Copy)]
pub enum Service {
    Audio(AudioService),
    // 25 bits, not read.
    Data(u32),
}

impl AudioService {
    fn parse(payload: u64) -> AudioService
        ensures { result ≡ audio_of payload }
    {
        AudioService {
            restricted: field_of(payload, 1, 24) == 1,
            program: field_of(payload, 6, 18) as u8,
            program_type: field_of(payload, 8, 10) as u8,
            reserved: field_of(payload, 5, 5) as u8,
            sound: field_of(payload, 5, 0) as u8,
        }
    }
}

impl Service {
    // The service in a payload of 27 bits.
    pub(crate) fn parse(payload: u64) -> Result<Service, Refusal>
        ensures { result ≡ service_of payload }
    {
        match field_of(payload, 2, 25) {
            0 => Ok(Service::Audio(AudioService::parse(payload))),
            1 => Ok(Service::Data(field_of(payload, 25, 0) as u32)),
            _ => Err(Refusal::OutOfRange),
        }
    }

    pub(crate) fn payload(self) -> Result<u64, Refusal>
        ensures value { result ≡ in_range (service_in_range self) (service_packed self) }
        ensures read_again { (p : ℕ) → result ≡ Ok p → (p < 2 ^ 27) × (service_of p ≡ Ok self) }
    {
        self.is_in_range()
            .then(|| self.packed())
            .ok_or(Refusal::OutOfRange)
    }

    fn packed(self) -> u64
        requires { service_in_range self ≡ true }
        ensures value { result ≡ service_packed self }
        ensures read_again { (result < 2 ^ 27) × (service_of result ≡ Ok self) }
    {
        match self {
            Service::Audio(audio) => {
                let program = u64::from(audio.restricted) * 64 + u64::from(audio.program);
                let kind = program * 256 + u64::from(audio.program_type);
                (kind * 32 + u64::from(audio.reserved)) * 32 + u64::from(audio.sound)
            }
            Service::Data(unread) => (1 << 25) + u64::from(unread),
        }
    }

    fn is_in_range(&self) -> bool
        ensures { result ≡ service_in_range self.now }
    {
        match self {
            Service::Audio(audio) => audio.program < 64 && audio.reserved < 32 && audio.sound < 32,
            Service::Data(unread) => *unread < 1 << 25,
        }
    }
}
