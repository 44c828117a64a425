//! Layouts of moments, and what they hold.

ghost use Rattle.std.specs.Prelude.{◌≡◌, ◌↔◌, IsTrue};
ghost use Rattle.lf_layout.specs.Layouts.{IsMoment, IsShown, HoldsMoment, writes_offset as writes_offset_of};

use lf_core::{Moment, Value};

/// How a layout writes the date: `2000-10-10` or `10/Oct/2000`.
#[derive(Clone, Copy, Debug, PartialEq, Eq)]
pub enum DateForm {
    Iso,
    Named,
}

/// What a layout writes of the offset: nothing, `Z`, ` -0700` or `-07:00`.
#[derive(Clone, Copy, Debug, PartialEq, Eq)]
pub enum Zone {
    Absent,
    Zulu,
    Compact,
    Colon,
}

/// The date and time of a moment as text: in brackets or not, the date's form, the letter between date
/// and time, with milliseconds or not, and what is written of the offset.
#[derive(Clone, Copy, Debug, PartialEq, Eq)]
pub struct Layout {
    pub bracketed: bool,
    pub date: DateForm,
    pub between: u8,
    pub millis: bool,
    pub zone: Zone,
}

/// Whether the moment lies in the years 0001 to 9999, and its offset is under a day.
pub fn is_moment(moment: &Moment) -> bool
    ensures { IsTrue result ↔ IsMoment moment.now }
{
    -62_135_596_800 <= moment.seconds
        && moment.seconds <= 253_402_300_799
        && moment.millis <= 999
        && -1439 <= moment.offset
        && moment.offset <= 1439
}

fn writes_offset(zone: Zone) -> bool
    ensures { result ≡ writes_offset_of zone }
{
    match zone {
        Zone::Absent | Zone::Zulu => false,
        Zone::Compact | Zone::Colon => true,
    }
}

/// Whether the moment has nothing but what the layout writes.
fn is_shown(layout: Layout, moment: &Moment) -> bool
    ensures { IsTrue result ↔ IsShown layout moment.now }
{
    is_moment(moment)
        && (layout.millis || moment.millis == 0)
        && (writes_offset(layout.zone) || moment.offset == 0)
}

/// Whether the layout holds the value.
pub fn holds_moment(layout: Layout, value: &Value) -> bool
    ensures { IsTrue result ↔ HoldsMoment layout value.now }
{
    match value {
        Value::Moment(moment) => is_shown(layout, moment),
        _ => false,
    }
}
