//! Offsets by their fields.
ghost use Rattle.std.specs.Prelude.{◌≡◌, ◌++◌, ◌∷◌, pos, true, false, cond, IsTrue, IfSome};
ghost use Rattle.std.specs.Bool.{OnFalse};
ghost use Rattle.lf_layout.specs.Layouts.{writes_offset, zone_text};
ghost use Rattle.lf_layout.specs.Texts.{letter_if, offset_text};
ghost use Rattle.lf_stamp.specs.Fields.{KeepsOffset, minutes_of};

use crate::digits::{after_byte, ones, tens, two_digits};
use lf_layout::Zone;

/// Whether the clock is behind that of the offset 0, and by how many hours and minutes it differs.
#[derive(Clone, Copy, Debug, PartialEq, Eq)]
pub struct Offset {
    pub behind: bool,
    pub hour: u8,
    pub minute: u8,
}

/// Whether the text begins with `-`, and what follows it or `+`.
fn sign(text: &[u8]) -> Option<(bool, &[u8])>
    ensures { IfSome result (λ found. text.now ≡ cond found.0 45 43 ∷ found.1.now) }
{
    let (first, left) = text.split_first()?;
    match first {
        b'+' => Some((false, left)),
        b'-' => Some((true, left)),
        _ => None,
    }
}

/// What follows the colon, where one is wanted.
fn after_colon(colon: bool, text: &[u8]) -> Option<&[u8]>
    ensures { IfSome result (λ left. text.now ≡ letter_if colon 58 ++ left.now) }
{
    if colon {
        after_byte(b':', text)
    } else {
        Some(text)
    }
}

impl Offset {
    /// No difference.
    pub const NONE: Offset = Offset {
        behind: false,
        hour: 0,
        minute: 0,
    };

    /// Whether it is under a day, and no zero with a minus.
    fn is_valid(self) -> bool
        ensures { IsTrue result → KeepsOffset self }
    {
        if self.hour >= 24 || self.minute >= 60 {
            return false;
        }
        !self.behind || self.hour > 0 || self.minute > 0
    }

    /// The offset like `-07:00`, or without the colon, that the text begins with, and what follows it.
    fn read(colon: bool, text: &[u8]) -> Option<(Offset, &[u8])>
        ensures { IfSome result (λ found. KeepsOffset found.0 × (text.now ≡ offset_text colon (minutes_of found.0) ++ found.1.now)) }
    {
        let (behind, more) = sign(text)?;
        let (hour, more) = two_digits(more)?;
        let more = after_colon(colon, more)?;
        let (minute, left) = two_digits(more)?;
        let offset = Offset {
            behind,
            hour,
            minute,
        };
        if !offset.is_valid() {
            return None;
        }
        Some((offset, left))
    }

    /// The offset as the zone writes it, and what follows it.
    pub(crate) fn read_zone(zone: Zone, text: &[u8]) -> Option<(Offset, &[u8])>
        ensures kept { IfSome result (λ found. KeepsOffset found.0) }
        ensures shown { IfSome result (λ found. OnFalse (writes_offset zone) (minutes_of found.0 ≡ pos 0)) }
        ensures text { IfSome result (λ found. text.now ≡ zone_text zone (minutes_of found.0) ++ found.1.now) }
    {
        match zone {
            Zone::Absent => Some((Offset::NONE, text)),
            Zone::Zulu => {
                let left = after_byte(b'Z', text)?;
                Some((Offset::NONE, left))
            }
            Zone::Compact => {
                let more = after_byte(b' ', text)?;
                Offset::read(false, more)
            }
            Zone::Colon => Offset::read(true, text),
        }
    }

    /// The letters of the offset, like `-07:00`.
    pub(crate) fn letters(self) -> [u8; 6]
        requires { KeepsOffset self }
        ensures { result ≡ offset_text true (minutes_of self) }
    {
        let sign = if self.behind { b'-' } else { b'+' };
        [
            sign,
            tens(self.hour),
            ones(self.hour),
            b':',
            tens(self.minute),
            ones(self.minute),
        ]
    }
}
