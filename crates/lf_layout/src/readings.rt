//! What a text of a layout says: fields at fixed places. Of other texts nothing is meant.

ghost use Rattle.std.specs.Prelude.{◌≡◌, ◌≤◌, slice_index, cond, MatchOption};
ghost use Rattle.lf_core.specs.Domain.{IsPlainOf, IsPlainOfNone};
ghost use Rattle.lf_layout.specs.Layouts.{HoldsMoment, moment_text, HoldsDay, day_text, HoldsClock, time_text};
ghost use Rattle.lf_layout.specs.Places.{IsPlaced, iso_date_places, clock_places, layout_places};
ghost use Rattle.lf_layout.specs.Readings.{digit_at as digit_at_of, number_at as number_at_of, year_at as year_at_of, date_at as date_at_of, second_at as second_at_of, millis_at as millis_at_of, offset_at as offset_at_of, signed_minutes as signed_minutes_of, date_place as date_place_of, clock_place as clock_place_of, date_width as date_width_of, millis_place, zone_place, seconds_of as seconds_of_spec, moment_at as moment_at_of};

use crate::calendar::{CivilDate, day_number};
use crate::layout::{DateForm, Layout, Zone};
use crate::machine::accepts;
use crate::names::month_of_name;
use crate::place::Place;
use lf_core::{Moment, Value};

fn letter_at(text: &[u8], at: usize) -> u8
    ensures { result ≡ slice_index text.now at }
{
    match text.get(at) {
        Some(letter) => *letter,
        None => 0,
    }
}

fn digit_at(text: &[u8], at: usize) -> u32
    ensures exact { result ≡ digit_at_of text.now at }
    ensures most { result ≤ 207 }
{
    letter_at(text, at).saturating_sub(b'0') as u32
}

fn number_at(text: &[u8], at: usize) -> u32
    requires { at ≤ 1000 }
    ensures exact { result ≡ number_at_of text.now at }
    ensures most { result ≤ 2277 }
{
    10 * digit_at(text, at) + digit_at(text, at + 1)
}

fn year_at(text: &[u8], at: usize) -> u32
    requires { at ≤ 900 }
    ensures exact { result ≡ year_at_of text.now at }
    ensures most { result ≤ 300000 }
{
    100 * number_at(text, at) + number_at(text, at + 2)
}

/// The date that begins at the place.
pub fn date_at(form: DateForm, text: &[u8], at: usize) -> CivilDate
    requires { at ≤ 800 }
    ensures exact { result ≡ date_at_of form text.now at }
    ensures year { result.year ≤ 300000 }
    ensures month { result.month ≤ 2277 }
    ensures day { result.day ≤ 2277 }
{
    match form {
        DateForm::Iso => CivilDate {
            year: year_at(text, at),
            month: number_at(text, at + 5),
            day: number_at(text, at + 8),
        },
        DateForm::Named => CivilDate {
            year: year_at(text, at + 7),
            month: month_of_name(
                letter_at(text, at + 3),
                letter_at(text, at + 4),
                letter_at(text, at + 5),
            ) + 1,
            day: number_at(text, at),
        },
    }
}

/// The second of the day of the time that begins at the place.
pub fn second_at(text: &[u8], at: usize) -> u32
    requires { at ≤ 800 }
    ensures exact { result ≡ second_at_of text.now at }
    ensures most { result ≤ 9000000 }
{
    3600 * number_at(text, at) + 60 * number_at(text, at + 3) + number_at(text, at + 6)
}

/// The milliseconds after a point at the place.
pub fn millis_at(here: bool, text: &[u8], at: usize) -> u16
    requires { at ≤ 800 }
    ensures { result ≡ millis_at_of here text.now at }
{
    if !here {
        return 0;
    }
    (100 * digit_at(text, at + 1) + number_at(text, at + 2)) as u16
}

fn signed_minutes(sign: u8, minutes: u32) -> i16
    requires { minutes ≤ 1439 }
    ensures { result ≡ signed_minutes_of sign minutes }
{
    if sign == b'-' {
        return -(minutes as i16);
    }
    minutes as i16
}

/// The offset that begins at the place, under a day.
pub fn offset_at(zone: Zone, text: &[u8], at: usize) -> i16
    requires { at ≤ 800 }
    ensures { result ≡ offset_at_of zone text.now at }
{
    match zone {
        Zone::Absent | Zone::Zulu => 0,
        Zone::Compact => {
            let minutes = 60 * number_at(text, at + 2) + number_at(text, at + 4);
            signed_minutes(letter_at(text, at + 1), minutes.min(1439))
        }
        Zone::Colon => {
            let minutes = 60 * number_at(text, at + 1) + number_at(text, at + 4);
            signed_minutes(letter_at(text, at), minutes.min(1439))
        }
    }
}

fn date_width(form: DateForm) -> usize
    ensures exact { result ≡ date_width_of form }
    ensures most { result ≤ 11 }
{
    match form {
        DateForm::Iso => 10,
        DateForm::Named => 11,
    }
}

fn date_place(layout: Layout) -> usize
    ensures exact { result ≡ date_place_of layout }
    ensures most { result ≤ 1 }
{
    if layout.bracketed { 1 } else { 0 }
}

/// How many letters the milliseconds take.
fn millis_width(layout: Layout) -> usize
    ensures { result ≡ cond layout.millis 4 0 }
{
    if layout.millis { 4 } else { 0 }
}

/// The seconds of a day and a second of it.
fn seconds_of(day: i32, second: u32) -> i64
    ensures { result ≡ seconds_of_spec day second }
{
    day as i64 * 86_400 + second as i64
}

/// The moment that a text of the layout says.
fn moment_at(layout: Layout, text: &[u8]) -> Moment
    ensures { result ≡ moment_at_of layout text.now }
{
    let date = date_place(layout);
    let clock = date + date_width(layout.date) + 1;
    let millis = clock + 8;
    let day = day_number(date_at(layout.date, text, date));
    Moment {
        seconds: seconds_of(day, second_at(text, clock)),
        millis: millis_at(layout.millis, text, millis),
        offset: offset_at(layout.zone, text, millis + millis_width(layout)),
    }
}

/// The held moment whose text this is, by the layout and its places.
pub fn read_moment(layout: Layout, places: &[Place], text: &[u8]) -> Option<Value>
    requires placed { IsPlaced places.now }
    requires places { places.now ≡ layout_places layout }
    ensures { MatchOption result (IsPlainOfNone (HoldsMoment layout) (moment_text layout) text.now) (IsPlainOf (HoldsMoment layout) (moment_text layout) text.now) }
{
    if !accepts(places, text) {
        return None;
    }
    Some(Value::Moment(moment_at(layout, text)))
}

/// The held day whose text this is.
pub fn read_day(places: &[Place], text: &[u8]) -> Option<Value>
    requires placed { IsPlaced places.now }
    requires places { places.now ≡ iso_date_places }
    ensures { MatchOption result (IsPlainOfNone HoldsDay day_text text.now) (IsPlainOf HoldsDay day_text text.now) }
{
    if !accepts(places, text) {
        return None;
    }
    Some(Value::Day(day_number(date_at(DateForm::Iso, text, 0))))
}

/// The held second of the day whose text this is.
pub fn read_clock(places: &[Place], text: &[u8]) -> Option<Value>
    requires placed { IsPlaced places.now }
    requires places { places.now ≡ clock_places }
    ensures { MatchOption result (IsPlainOfNone HoldsClock time_text text.now) (IsPlainOf HoldsClock time_text text.now) }
{
    if !accepts(places, text) {
        return None;
    }
    Some(Value::Clock(second_at(text, 0)))
}
