// The frames of an alert. Every frame begins with its number in 6 bits, its sequence number in 2 and 2 reserved bits. Frame 0 goes on with the encoding in 3 bits, the length in 9, the check in 7, the control length in 5 and three bytes; a later frame with six bytes.
ghost use Rattle.std.specs.Prelude.{◌≡◌, length, refl};
ghost use Rattle.std.specs.Result.{result_err};
ghost use Rattle.family.specs.Texts.{bytes_of};
ghost use Rattle.alert.specs.Alert.{frame_layout, alert_layout, lawful_head, lawful_length, alert_refusal, fields_of, check_of, length_in};
ghost use Rattle.alert.specs.Sound.{sound};

use crate::alert::{Alert, AlertHead};
use family::family_layout::FamilyLayout;
use family::text::{Record, Text};
use layout::frames::frame_or_zero;
use layout::layout::{FrameFields, FrameLayout, Payload};
use pdu::refusal::Refusal;

// The longest alert.
const LONGEST: usize = 381;

fn lawful_head(head: AlertHead) -> bool
    ensures { result ≡ lawful_head head }
{
    matches!(head.encoding, 0 | 4) && (3..=31).contains(&head.control_length)
}

fn lawful_length(head: AlertHead, length: usize) -> bool
    ensures { result ≡ lawful_length head length }
{
    (7..=LONGEST).contains(&length) && 2 * usize::from(head.control_length) <= length
}

// Refuses an alert whose head is not lawful, and then one that does not have a lawful number of bytes for it.
pub fn require_lawful_alert(head: AlertHead, length: usize) -> Result<(), Refusal>
    ensures { result_err result ≡ alert_refusal head length }
{
    if !lawful_head(head) {
        return Err(Refusal::HeadSettingOrPlace);
    }
    if !lawful_length(head, length) {
        return Err(Refusal::TextLength);
    }
    Ok(())
}

// The fields of an alert's frames.
fn fields_of(alert: &Alert, head: AlertHead, text: &Text, sequence: u8) -> FrameFields
    ensures { result ≡ fields_of sequence head (length (bytes_of text.now)) (check_of alert.now (bytes_of text.now)) }
{
    let sequence = u64::from(sequence);
    let told = (sequence * 32 + u64::from(head.encoding)) * 512 + text.len as u64;
    let checked = told * 128 + u64::from(alert.check(text));
    FrameFields {
        first_leading: checked * 32 + u64::from(head.control_length),
        later_leading: sequence * 4,
        number_unit: 16,
        trailing: 0,
    }
}

// The length that frame 0 tells.
fn length_told(frame: Payload) -> usize
    ensures { result ≡ length_in frame }
{
    ((frame >> 36) % 512) as usize
}

impl FamilyLayout for Alert {
    type Head = AlertHead;

    const MODULUS: u8 = 4;

    const FRAME_LAYOUT: FrameLayout = FrameLayout {
        byte_bits: 8,
        trailing_bits: 0,
        first_bytes: 3,
        later_bytes: 6,
    };

    ghost MODULUS = { 4 };

    ghost FRAME_LAYOUT = { frame_layout };

    ghost layout = { alert_layout };

    ghost modulus_is = { refl };

    ghost frame_layout_is = { refl };

    ghost sound = { sound };

    fn refuse_unlawful(&self, record: &Record<AlertHead>) -> Result<(), Refusal> {
        require_lawful_alert(record.head, record.text.len)
    }

    fn accepts(&self, frame: Payload) -> bool {
        // The reserved bits of every frame are zero.
        if frame >= 1 << 58 || (frame >> 48) % 4 != 0 {
            return false;
        }
        self.number_in(frame) != 0
            || require_lawful_alert(self.head_in(frame), length_told(frame)).is_ok()
    }

    fn number_in(&self, frame: Payload) -> usize {
        ((frame >> 52) % 64) as usize
    }

    fn sequence_in(&self, frame: Payload) -> u8 {
        ((frame >> 50) % 4) as u8
    }

    fn last_in(&self, frame: Payload) -> usize {
        Self::FRAME_LAYOUT.last_number(length_told(frame))
    }

    fn head_in(&self, frame: Payload) -> AlertHead {
        AlertHead {
            encoding: ((frame >> 45) % 8) as u8,
            control_length: ((frame >> 24) % 32) as u8,
        }
    }

    // No more bytes are looked for than a text holds.
    fn length_in(&self, frames: &[Payload]) -> usize {
        length_told(frame_or_zero(frames, 0)).min(LONGEST)
    }

    fn fields(&self, record: &Record<AlertHead>, sequence: u8) -> FrameFields {
        fields_of(self, record.head, &record.text, sequence)
    }
}
