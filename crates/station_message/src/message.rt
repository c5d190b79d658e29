// The frames of a station message. Every frame begins with its number in 5 bits and its sequence number in 2. Frame 0 goes on with the priority in 1 bit, the encoding in 3, the length in 8, the checksum in 7 and four bytes; a later frame with 3 reserved bits and six bytes.
ghost use Rattle.std.specs.Prelude.{◌≡◌, length, refl};
ghost use Rattle.family.specs.Texts.{bytes_of};
ghost use Rattle.station_message.specs.Checksum.{checksum_of};
ghost use Rattle.station_message.specs.Message.{frame_layout, message_layout, lawful_encoding, lawful_length, fields_of, length_in};
ghost use Rattle.station_message.specs.Sound.{sound};

use crate::checksum::checksum;
use family::family_layout::FamilyLayout;
use family::text::{Record, Text};
use layout::frames::frame_or_zero;
use layout::layout::{FrameFields, FrameLayout, Payload};
use pdu::refusal::Refusal;

#[derive(Clone, Copy)]
pub struct StationMessage;

// Plain numbers: others than the lawful ones come here too, from frames and callers, and are refused.
#[derive(Clone, Copy, PartialEq, Eq, Debug)]
pub struct MessageHead {
    // 1 for a message that comes before others.
    pub priority: u8,
    pub encoding: u8,
}

fn lawful_encoding(encoding: u8) -> bool
    ensures { result ≡ lawful_encoding encoding }
{
    matches!(encoding, 0 | 4)
}

fn lawful_length(length: usize) -> bool
    ensures { result ≡ lawful_length length }
{
    (4..=190).contains(&length)
}

// The length that frame 0 tells.
fn length_told(frame: Payload) -> usize
    ensures { result ≡ length_in frame }
{
    ((frame >> 39) % 256) as usize
}

// The fields of a message's frames.
fn fields_of(head: MessageHead, text: &Text, sequence: u8) -> FrameFields
    ensures { result ≡ fields_of sequence head (length (bytes_of text.now)) (checksum_of (bytes_of text.now)) }
{
    let sequence = u64::from(sequence);
    let head = (sequence * 2 + u64::from(head.priority)) * 8 + u64::from(head.encoding);
    FrameFields {
        first_leading: (head * 256 + text.len as u64) * 128 + u64::from(checksum(text)),
        later_leading: sequence * 8,
        number_unit: 32,
        trailing: 0,
    }
}

impl FamilyLayout for StationMessage {
    type Head = MessageHead;

    const MODULUS: u8 = 4;

    const FRAME_LAYOUT: FrameLayout = FrameLayout {
        byte_bits: 8,
        trailing_bits: 0,
        first_bytes: 4,
        later_bytes: 6,
    };

    ghost MODULUS = { 4 };

    ghost FRAME_LAYOUT = { frame_layout };

    ghost layout = { message_layout };

    ghost modulus_is = { refl };

    ghost frame_layout_is = { refl };

    ghost sound = { sound };

    fn refuse_unlawful(&self, record: &Record<MessageHead>) -> Result<(), Refusal> {
        if record.head.priority > 1 || !lawful_encoding(record.head.encoding) {
            return Err(Refusal::HeadSettingOrPlace);
        }
        if !lawful_length(record.text.len) {
            return Err(Refusal::TextLength);
        }
        Ok(())
    }

    fn accepts(&self, frame: Payload) -> bool {
        if frame >= 1 << 58 {
            return false;
        }
        if self.number_in(frame) == 0 {
            lawful_encoding(self.head_in(frame).encoding) && lawful_length(length_told(frame))
        } else {
            // The reserved bits of a later frame are zero.
            (frame >> 48) % 8 == 0
        }
    }

    fn number_in(&self, frame: Payload) -> usize {
        ((frame >> 53) % 32) as usize
    }

    fn sequence_in(&self, frame: Payload) -> u8 {
        ((frame >> 51) % 4) as u8
    }

    fn last_in(&self, frame: Payload) -> usize {
        Self::FRAME_LAYOUT.last_number(length_told(frame))
    }

    fn head_in(&self, frame: Payload) -> MessageHead {
        MessageHead {
            priority: ((frame >> 50) % 2) as u8,
            encoding: ((frame >> 47) % 8) as u8,
        }
    }

    fn length_in(&self, frames: &[Payload]) -> usize {
        length_told(frame_or_zero(frames, 0))
    }

    fn fields(&self, record: &Record<MessageHead>, sequence: u8) -> FrameFields {
        fields_of(record.head, &record.text, sequence)
    }
}
