//! Dates and the numbers of their days.

ghost use Rattle.std.specs.Prelude.{◌≡◌, ◌+◌, ◌≤◌, ◌↔◌, IsTrue};
ghost use Rattle.lf_layout.specs.Calendar.{IsDate, IsDay, days_of_month as days_of_month_of, days_of_months as days_of_months_of, days_before_year as days_before_year_of, is_leap as is_leap_of, day_count as day_count_of, day_number as day_number_of, civil_date};

use jiff_core::civil::Date;

/// A year, a month of the year and a day of the month, each from 1.
#[derive(Clone, Copy, Debug, PartialEq, Eq)]
pub struct CivilDate {
    pub year: u32,
    pub month: u32,
    pub day: u32,
}

fn is_leap(year: u32) -> bool
    ensures { result ≡ is_leap_of year }
{
    (year % 4 == 0 && year % 100 != 0) || year % 400 == 0
}

/// How many days the month has, counted from 1, in a leap year or another.
pub fn days_of_month(leap: bool, month: u32) -> u32
    ensures exact { result ≡ days_of_month_of leap month }
    ensures least { 28 ≤ result }
    ensures most { result ≤ 31 }
{
    match month {
        2 => { if leap { 29 } else { 28 } }
        4 | 6 | 9 | 11 => 30,
        _ => 31,
    }
}

/// The days of the first so many months of the year.
fn days_of_months(year: u32, months: u32) -> u32
    requires { months ≤ 10000 }
    ensures exact { result ≡ days_of_months_of year months }
    ensures most { result ≤ 310000 }
{
    let leap = is_leap(year);
    let mut days = 0;
    for month in 0..months {
        days += days_of_month(leap, month + 1);
    }
    days
}

/// The days of the years before it.
fn days_before_year(year: u32) -> u32
    requires { year ≤ 1000000 }
    ensures exact { result ≡ days_before_year_of year }
    ensures most { result ≤ 400000000 }
{
    let before = year.saturating_sub(1);
    365 * before + before / 4 - before / 100 + before / 400
}

/// The day number of a date: 0 for 1970-01-01, and negative before it.
pub fn day_number(date: CivilDate) -> i32
    requires year { date.year ≤ 1000000 }
    requires month { date.month ≤ 10000 }
    requires day { date.day ≤ 10000 }
    ensures { result ≡ day_number_of date }
{
    let count = days_before_year(date.year)
        + days_of_months(date.year, date.month.saturating_sub(1))
        + date.day;
    count as i32 - 719_163
}

/// The date of a day of the years 0001 to 9999.
pub fn date_of(day: i32) -> CivilDate
    requires { IsDay day }
    ensures exact { result ≡ civil_date day }
    ensures valid { IsDate result }
{
    match Date::from_unix_epoch_day(day as i64) {
        Ok(date) => CivilDate {
            year: date.year as u32,
            month: date.month as u32,
            day: date.day as u32,
        },
        Err(_) => CivilDate {
            year: 1,
            month: 1,
            day: 1,
        },
    }
}

/// Whether the day lies in the years 0001 to 9999.
pub fn is_day(day: i32) -> bool
    ensures { IsTrue result ↔ IsDay day }
{
    -719_162 <= day && day <= 2_932_896
}
