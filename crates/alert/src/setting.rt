// The setting of the alerts, and the check that it gives.
ghost use Rattle.std.specs.Prelude.{◌≡◌};
ghost use Rattle.pdu.specs.Division.{OnlyRemainder};
ghost use Rattle.family.specs.Texts.{bytes_of};
ghost use Rattle.pdu.specs.Dividend.{dividend};
ghost use Rattle.alert.specs.Alert.{generator_view, generator_taken, check_of};

use crate::alert::Alert;
use family::text::Text;
use pdu::divisor::Divisor;
use pdu::refusal::Refusal;

impl Alert {
    // The alerts under an odd generator from 1 to 127.
    pub fn new(generator: u8) -> Result<Alert, Refusal>
        ensures { generator_view result ≡ generator_taken generator }
    {
        if generator < 128 && generator % 2 == 1 {
            Ok(Alert { generator })
        } else {
            Err(Refusal::HeadSettingOrPlace)
        }
    }

    // The check that an alert with this text carries.
    pub fn check(&self, text: &Text) -> u8
        ensures value { result ≡ check_of self.now (bytes_of text.now) }
        ensures law { OnlyRemainder 7 self.now.generator (dividend 7 (bytes_of text.now)) result }
    {
        let divisor = Divisor {
            degree: 7,
            generator: u16::from(self.generator),
        };
        divisor.remainder(text.as_slice()) as u8
    }
}
