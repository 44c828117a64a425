//! Dates by their fields.
ghost use Rattle.std.specs.Prelude.{◌≡◌, ◌≤◌, ◌<◌, ◌++◌, ◌∷◌, [], IsTrue, IfSome, OnOk, OnErr};
ghost use Rattle.lf_layout.specs.Calendar.{days_of_month as days_of_month_of, is_leap as is_leap_year};
ghost use Rattle.lf_layout.specs.Layouts.{date_text};
ghost use Rattle.lf_layout.specs.Texts.{iso_date_text, month_name, named_date_text};
ghost use Rattle.lf_stamp.specs.Fields.{KeepsDate, date_of, year_of};

use crate::digits::{after_byte, ones, tens, two_digits};
use lf_core::{Bytes, OutOfMemory};
use lf_layout::DateForm;

/// The first two digits of a year, the last two, the month and the day.
#[derive(Clone, Copy, Debug, PartialEq, Eq)]
pub struct Date {
    pub century: u8,
    pub year: u8,
    pub month: u8,
    pub day: u8,
}

/// The month with the name of these letters, from 1.
#[tactic(auto, unfolding(lf_layout::specs::Texts::month_letter))]
fn month_of(first: u8, second: u8, third: u8) -> Option<u8>
    ensures { IfSome result (λ month. month_name month ≡ first ∷ second ∷ third ∷ []) }
{
    match [first, second, third] {
        [b'J', b'a', b'n'] => Some(1),
        [b'F', b'e', b'b'] => Some(2),
        [b'M', b'a', b'r'] => Some(3),
        [b'A', b'p', b'r'] => Some(4),
        [b'M', b'a', b'y'] => Some(5),
        [b'J', b'u', b'n'] => Some(6),
        [b'J', b'u', b'l'] => Some(7),
        [b'A', b'u', b'g'] => Some(8),
        [b'S', b'e', b'p'] => Some(9),
        [b'O', b'c', b't'] => Some(10),
        [b'N', b'o', b'v'] => Some(11),
        [b'D', b'e', b'c'] => Some(12),
        _ => None,
    }
}

/// The month whose name the text begins with, and what follows it.
fn named_month(text: &[u8]) -> Option<(u8, &[u8])>
    ensures { IfSome result (λ found. text.now ≡ month_name found.0 ++ found.1.now) }
{
    let (first, more) = text.split_first()?;
    let (second, more) = more.split_first()?;
    let (third, left) = more.split_first()?;
    let month = month_of(*first, *second, *third)?;
    Some((month, left))
}

/// The days of a month, of a leap year or another.
fn days_of_month(leap: bool, month: u8) -> u8
    ensures { result ≡ days_of_month_of leap month }
{
    match month {
        2 => { if leap { 29 } else { 28 } }
        4 | 6 | 9 | 11 => 30,
        _ => 31,
    }
}

impl Date {
    /// Whether the year is a leap year.
    fn is_leap(self) -> bool
        requires century { self.century < 100 }
        requires year { self.year < 100 }
        ensures { result ≡ is_leap_year (year_of self) }
    {
        let year = 100 * u16::from(self.century) + u16::from(self.year);
        year % 4 == 0 && year % 100 != 0 || year % 400 == 0
    }

    /// Whether the calendar has the date.
    fn is_valid(self) -> bool
        ensures { IsTrue result → KeepsDate self }
    {
        if self.century >= 100 || self.year >= 100 {
            return false;
        }
        if self.century == 0 && self.year == 0 {
            return false;
        }
        if self.month == 0 || 12 < self.month {
            return false;
        }
        1 <= self.day && self.day <= days_of_month(self.is_leap(), self.month)
    }

    /// The date like `2000-10-10` that the text begins with, and what follows it.
    pub fn read_iso(text: &[u8]) -> Option<(Date, &[u8])>
        ensures { IfSome result (λ found. KeepsDate found.0 × (text.now ≡ iso_date_text (date_of found.0) ++ found.1.now)) }
    {
        let (century, more) = two_digits(text)?;
        let (year, more) = two_digits(more)?;
        let more = after_byte(b'-', more)?;
        let (month, more) = two_digits(more)?;
        let more = after_byte(b'-', more)?;
        let (day, left) = two_digits(more)?;
        let date = Date {
            century,
            year,
            month,
            day,
        };
        if !date.is_valid() {
            return None;
        }
        Some((date, left))
    }

    /// The date like `10/Oct/2000` that the text begins with, and what follows it.
    fn read_named(text: &[u8]) -> Option<(Date, &[u8])>
        ensures { IfSome result (λ found. KeepsDate found.0 × (text.now ≡ named_date_text (date_of found.0) ++ found.1.now)) }
    {
        let (day, more) = two_digits(text)?;
        let more = after_byte(b'/', more)?;
        let (month, more) = named_month(more)?;
        let more = after_byte(b'/', more)?;
        let (century, more) = two_digits(more)?;
        let (year, left) = two_digits(more)?;
        let date = Date {
            century,
            year,
            month,
            day,
        };
        if !date.is_valid() {
            return None;
        }
        Some((date, left))
    }

    /// The date of the form that the text begins with, and what follows it.
    pub(crate) fn read(form: DateForm, text: &[u8]) -> Option<(Date, &[u8])>
        ensures { IfSome result (λ found. KeepsDate found.0 × (text.now ≡ date_text form (date_of found.0) ++ found.1.now)) }
    {
        match form {
            DateForm::Iso => Date::read_iso(text),
            DateForm::Named => Date::read_named(text),
        }
    }

    /// The letters of the date, like `2000-10-10`.
    pub(crate) fn letters(self) -> [u8; 10]
        requires { KeepsDate self }
        ensures { result ≡ iso_date_text (date_of self) }
    {
        [
            tens(self.century),
            ones(self.century),
            tens(self.year),
            ones(self.year),
            b'-',
            tens(self.month),
            ones(self.month),
            b'-',
            tens(self.day),
            ones(self.day),
        ]
    }

    /// Appends the date, like `2000-10-10`, between quotes.
    pub fn write_json(self, into: &mut Bytes) -> Result<(), OutOfMemory>
        requires { KeepsDate self }
        ensures ok { OnOk result (into.new ≡ into.old ++ 34 ∷ (iso_date_text (date_of self) ++ 34 ∷ [])) }
        ensures err { OnErr result (into.new ≡ into.old) }
    {
        let [a, b, c, d, e, f, g, h, i, j] = self.letters();
        into.extend(&[b'"', a, b, c, d, e, f, g, h, i, j, b'"'])
    }
}
