//! Stamps: moments by their fields.
ghost use Rattle.std.specs.Prelude.{◌≡◌, ◌<◌, ◌++◌, ◌∷◌, [], IfSome, OnOk, OnErr};
ghost use Rattle.std.specs.Bool.{OnFalse};
ghost use Rattle.lf_layout.specs.Layouts.{IsShown, layout_text, millis_text};
ghost use Rattle.lf_layout.specs.Texts.{letter_if, three};
ghost use Rattle.lf_stamp.specs.Fields.{KeepsStamp, moment_of, stamp_text};
ghost use Rattle.lf_time.specs.TimeLayouts.{json_layout};

use crate::date::Date;
use crate::digits::{after_byte, ones, tens, three_digits};
use crate::offset::Offset;
use crate::time_of_day::TimeOfDay;
use lf_core::{Bytes, OutOfMemory};
use lf_layout::Layout;

/// A date, a time of the day, thousandths of a second, and an offset.
#[derive(Clone, Copy, Debug, PartialEq, Eq)]
pub struct Stamp {
    pub date: Date,
    pub time: TimeOfDay,
    pub millis: u16,
    pub offset: Offset,
}

/// What follows the byte, where one is wanted.
fn after_if(wanted: bool, byte: u8, text: &[u8]) -> Option<&[u8]>
    ensures { IfSome result (λ left. text.now ≡ letter_if wanted byte ++ left.now) }
{
    if wanted {
        after_byte(byte, text)
    } else {
        Some(text)
    }
}

/// The thousandths of a second, where they are written, and what follows them.
fn read_millis(written: bool, text: &[u8]) -> Option<(u16, &[u8])>
    ensures range { IfSome result (λ found. found.0 < 1000) }
    ensures shown { IfSome result (λ found. OnFalse written (found.0 ≡ 0)) }
    ensures text { IfSome result (λ found. text.now ≡ millis_text written found.0 ++ found.1.now) }
{
    if !written {
        return Some((0, text));
    }
    let more = after_byte(b'.', text)?;
    three_digits(more)
}

/// The letters of thousandths of a second.
fn millis_letters(millis: u16) -> [u8; 3]
    requires { millis < 1000 }
    ensures { result ≡ three millis }
{
    let rest = (millis % 100) as u8;
    [b'0' + (millis / 100) as u8, tens(rest), ones(rest)]
}

impl Stamp {
    /// The stamp of the layout that the text begins with, and what follows it.
    pub fn read(layout: Layout, text: &[u8]) -> Option<(Stamp, &[u8])>
        ensures kept { IfSome result (λ found. KeepsStamp found.0) }
        ensures shown { IfSome result (λ found. IsShown layout (moment_of found.0)) }
        ensures text { IfSome result (λ found. text.now ≡ layout_text layout (moment_of found.0) ++ found.1.now) }
    {
        let more = after_if(layout.bracketed, b'[', text)?;
        let (date, more) = Date::read(layout.date, more)?;
        let more = after_byte(layout.between, more)?;
        let (time, more) = TimeOfDay::read(more)?;
        let (millis, more) = read_millis(layout.millis, more)?;
        let (offset, more) = Offset::read_zone(layout.zone, more)?;
        let left = after_if(layout.bracketed, b']', more)?;
        let stamp = Stamp {
            date,
            time,
            millis,
            offset,
        };
        Some((stamp, left))
    }

    /// Appends the fields, like `2000-10-10T13:55:36.000-07:00`, between quotes.
    fn write_fields(&self, into: &mut Bytes) -> Result<(), OutOfMemory>
        requires { KeepsStamp self.now }
        ensures ok { OnOk result (into.new ≡ into.old ++ 34 ∷ (stamp_text json_layout self.now ++ 34 ∷ [])) }
        ensures err { OnErr result (into.new ≡ into.old) }
    {
        let [a, b, c, d, e, f, g, h, i, j] = self.date.letters();
        let [k, l, m, n, o, p, q, r] = self.time.letters();
        let [s, t, u] = millis_letters(self.millis);
        let [v, w, x, y, z, last] = self.offset.letters();
        into.extend(&[
            b'"', a, b, c, d, e, f, g, h, i, j, b'T', k, l, m, n, o, p, q, r, b'.', s, t, u, v, w,
            x, y, z, last, b'"',
        ])
    }

    /// Appends the stamp, like `2000-10-10T13:55:36.000-07:00`, between quotes.
    pub fn write_json(&self, into: &mut Bytes) -> Result<(), OutOfMemory>
        requires { KeepsStamp self.now }
        ensures ok { OnOk result (into.new ≡ into.old ++ 34 ∷ (layout_text json_layout (moment_of self.now) ++ 34 ∷ [])) }
        ensures err { OnErr result (into.new ≡ into.old) }
    {
        self.write_fields(into)
    }
}
