//! How a layout writes a moment.

ghost use Rattle.std.specs.Prelude.{◌≡◌, ◌+◌, ◌≤◌, ◌<◌, [], ◌∷◌, ◌++◌, OnOk, OnErr};
ghost use Rattle.arrayvec.specs.ArrayVec.{array_vec_len};
ghost use Rattle.lf_layout.specs.Calendar.{IsDate, civil_date, IsDay};
ghost use Rattle.lf_layout.specs.Layouts.{IsOffset, civil_day as civil_day_of, second_of_day as second_of_day_of, IsMoment, IsShown, HoldsMoment, layout_text, moment_text, date_text, millis_text, zone_text, HoldsDay, day_text, HoldsClock, time_text};
ghost use Rattle.lf_layout.specs.Texts.{clock_text, letter_if};

use crate::calendar::{CivilDate, date_of};
use crate::layout::{DateForm, Layout, Zone};
use crate::text::{Text, put_clock, put_if, put_iso_date, put_named_date, put_offset, put_three};
use arrayvec::ArrayVec;
use lf_core::{Bytes, Moment, OutOfMemory, Value};

const DAY: i64 = 86_400;

/// The civil day of a moment's seconds.
fn civil_day(moment: &Moment) -> i32
    requires { IsMoment moment.now }
    ensures exact { result ≡ civil_day_of moment.now.seconds }
    ensures in_range { IsDay result }
{
    moment.seconds.div_euclid(DAY) as i32
}

fn second_of_day(seconds: i64) -> u32
    ensures exact { result ≡ second_of_day_of seconds }
    ensures most { result < 86400 }
{
    seconds.rem_euclid(DAY) as u32
}

fn put_date(form: DateForm, date: CivilDate, text: &mut Text)
    requires date { IsDate date }
    requires room { array_vec_len text.old ≤ 21 }
    ensures items { text.new.items ≡ text.old.items ++ date_text form date }
    ensures len { array_vec_len text.new ≤ array_vec_len text.old + 11 }
{
    match form {
        DateForm::Iso => put_iso_date(date, text),
        DateForm::Named => put_named_date(date, text),
    }
}

fn put_millis(here: bool, millis: u16, text: &mut Text)
    requires millis { millis ≤ 999 }
    requires room { array_vec_len text.old ≤ 28 }
    ensures items { text.new.items ≡ text.old.items ++ millis_text here millis }
    ensures len { array_vec_len text.new ≤ array_vec_len text.old + 4 }
{
    if !here {
        return;
    }
    text.push(b'.');
    put_three(millis as u32, text);
}

fn put_zone(zone: Zone, offset: i16, text: &mut Text)
    requires offset { IsOffset offset }
    requires room { array_vec_len text.old ≤ 25 }
    ensures items { text.new.items ≡ text.old.items ++ zone_text zone offset }
    ensures len { array_vec_len text.new ≤ array_vec_len text.old + 7 }
{
    match zone {
        Zone::Absent => {}
        Zone::Zulu => text.push(b'Z'),
        Zone::Compact => {
            text.push(b' ');
            put_offset(false, offset, text);
        }
        Zone::Colon => put_offset(true, offset, text),
    }
}

/// The date, the letter between and the time of the day.
fn put_civil(layout: Layout, moment: &Moment, text: &mut Text)
    requires moment { IsMoment moment.now }
    requires room { array_vec_len text.old ≤ 1 }
    ensures items { text.new.items ≡ text.old.items ++ date_text layout.date (civil_date (civil_day_of moment.now.seconds)) ++ layout.between ∷ clock_text (second_of_day_of moment.now.seconds) }
    ensures len { array_vec_len text.new ≤ array_vec_len text.old + 20 }
{
    put_date(layout.date, date_of(civil_day(moment)), text);
    text.push(layout.between);
    put_clock(second_of_day(moment.seconds), text);
}

fn put_moment(layout: Layout, moment: &Moment, text: &mut Text)
    requires moment { IsShown layout moment.now }
    requires empty { text.old.items ≡ [] }
    ensures { text.new.items ≡ layout_text layout moment.now }
{
    put_if(layout.bracketed, b'[', text);
    put_civil(layout, moment, text);
    put_millis(layout.millis, moment.millis, text);
    put_zone(layout.zone, moment.offset, text);
    put_if(layout.bracketed, b']', text);
}

/// Appends the text of a held moment.
pub fn write_moment(layout: Layout, value: &Value, into: &mut Bytes) -> Result<(), OutOfMemory>
    requires { HoldsMoment layout value.now }
    ensures ok { OnOk result (into.new ≡ into.old ++ moment_text layout value.now) }
    ensures err { OnErr result (into.new ≡ into.old) }
{
    match value {
        Value::Moment(moment) => {
            let mut text = ArrayVec::new();
            put_moment(layout, moment, &mut text);
            into.extend(text.as_slice())
        }
        _ => Ok(()),
    }
}

/// Appends the text of a held day.
pub fn write_day(value: &Value, into: &mut Bytes) -> Result<(), OutOfMemory>
    requires { HoldsDay value.now }
    ensures ok { OnOk result (into.new ≡ into.old ++ day_text value.now) }
    ensures err { OnErr result (into.new ≡ into.old) }
{
    match value {
        Value::Day(day) => {
            let mut text = ArrayVec::new();
            put_iso_date(date_of(*day), &mut text);
            into.extend(text.as_slice())
        }
        _ => Ok(()),
    }
}

/// Appends the text of a held second of the day.
pub fn write_clock(value: &Value, into: &mut Bytes) -> Result<(), OutOfMemory>
    requires { HoldsClock value.now }
    ensures ok { OnOk result (into.new ≡ into.old ++ time_text value.now) }
    ensures err { OnErr result (into.new ≡ into.old) }
{
    match value {
        Value::Clock(second) => {
            let mut text = ArrayVec::new();
            put_clock(*second, &mut text);
            into.extend(text.as_slice())
        }
        _ => Ok(()),
    }
}
