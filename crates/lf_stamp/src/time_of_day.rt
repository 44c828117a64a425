//! Times of the day by their fields.
ghost use Rattle.std.specs.Prelude.{◌≡◌, ◌++◌, ◌∷◌, [], IfSome, OnOk, OnErr};
ghost use Rattle.lf_layout.specs.Texts.{clock_text};
ghost use Rattle.lf_stamp.specs.Fields.{KeepsTime, second_of};

use crate::digits::{after_byte, ones, tens, two_digits};
use lf_core::{Bytes, OutOfMemory};

/// An hour, a minute and a second.
#[derive(Clone, Copy, Debug, PartialEq, Eq)]
pub struct TimeOfDay {
    pub hour: u8,
    pub minute: u8,
    pub second: u8,
}

impl TimeOfDay {
    /// The time like `13:55:36` that the text begins with, and what follows it.
    pub fn read(text: &[u8]) -> Option<(TimeOfDay, &[u8])>
        ensures { IfSome result (λ found. KeepsTime found.0 × (text.now ≡ clock_text (second_of found.0) ++ found.1.now)) }
    {
        let (hour, more) = two_digits(text)?;
        let more = after_byte(b':', more)?;
        let (minute, more) = two_digits(more)?;
        let more = after_byte(b':', more)?;
        let (second, left) = two_digits(more)?;
        if hour >= 24 || minute >= 60 || second >= 60 {
            return None;
        }
        Some((
            TimeOfDay {
                hour,
                minute,
                second,
            },
            left,
        ))
    }

    /// The letters of the time, like `13:55:36`.
    pub(crate) fn letters(self) -> [u8; 8]
        requires { KeepsTime self }
        ensures { result ≡ clock_text (second_of self) }
    {
        [
            tens(self.hour),
            ones(self.hour),
            b':',
            tens(self.minute),
            ones(self.minute),
            b':',
            tens(self.second),
            ones(self.second),
        ]
    }

    /// Appends the time, like `13:55:36`, between quotes.
    pub fn write_json(self, into: &mut Bytes) -> Result<(), OutOfMemory>
        requires { KeepsTime self }
        ensures ok { OnOk result (into.new ≡ into.old ++ 34 ∷ (clock_text (second_of self) ++ 34 ∷ [])) }
        ensures err { OnErr result (into.new ≡ into.old) }
    {
        let [a, b, c, d, e, f, g, h] = self.letters();
        into.extend(&[b'"', a, b, c, d, e, f, g, h, b'"'])
    }
}
