//! Texts of dates, times and offsets, put together in a small buffer.

ghost use Rattle.std.specs.Prelude.{◌≡◌, ◌+◌, ◌-◌, ◌/◌, ◌%◌, ◌<◌, ◌≤◌, [], ◌∷◌, ◌++◌, ℤ, pos, unsigned_abs};
ghost use Rattle.arrayvec.specs.ArrayVec.{array_vec_len};
ghost use Rattle.lf_layout.specs.Calendar.{IsDate};
ghost use Rattle.lf_layout.specs.Layouts.{IsOffset};
ghost use Rattle.lf_layout.specs.Texts.{two, three, four, month_name, iso_date_text, named_date_text, clock_text, sign_letter, letter_if, offset_text};

use crate::calendar::CivilDate;
use crate::names::month_letter;
use arrayvec::ArrayVec;

/// Room for the longest text.
pub type Text = ArrayVec<u8, 32>;

/// The two digits of a number below 100.
fn put_two(number: u32, text: &mut Text)
    requires number { number < 100 }
    requires room { array_vec_len text.old ≤ 30 }
    ensures items { text.new.items ≡ text.old.items ++ two number }
    ensures len { array_vec_len text.new ≡ array_vec_len text.old + 2 }
{
    text.push(b'0' + (number / 10) as u8);
    text.push(b'0' + (number % 10) as u8);
}

/// The three digits of a number below 1000.
pub fn put_three(number: u32, text: &mut Text)
    requires number { number < 1000 }
    requires room { array_vec_len text.old ≤ 29 }
    ensures items { text.new.items ≡ text.old.items ++ three number }
    ensures len { array_vec_len text.new ≡ array_vec_len text.old + 3 }
{
    text.push(b'0' + (number / 100) as u8);
    put_two(number % 100, text);
}

/// The four digits of a year.
fn put_four(number: u32, text: &mut Text)
    requires number { number < 10000 }
    requires room { array_vec_len text.old ≤ 28 }
    ensures items { text.new.items ≡ text.old.items ++ four number }
    ensures len { array_vec_len text.new ≡ array_vec_len text.old + 4 }
{
    put_two(number / 100, text);
    put_two(number % 100, text);
}

/// The letters of a month, from 1.
fn put_month_name(month: u32, text: &mut Text)
    requires least { 1 ≤ month }
    requires most { month ≤ 12 }
    requires room { array_vec_len text.old ≤ 29 }
    ensures items { text.new.items ≡ text.old.items ++ month_name month }
    ensures len { array_vec_len text.new ≡ array_vec_len text.old + 3 }
{
    text.push(month_letter(month - 1, 0));
    text.push(month_letter(month - 1, 1));
    text.push(month_letter(month - 1, 2));
}

/// `2000-10-10`.
pub fn put_iso_date(date: CivilDate, text: &mut Text)
    requires date { IsDate date }
    requires room { array_vec_len text.old ≤ 22 }
    ensures items { text.new.items ≡ text.old.items ++ iso_date_text date }
    ensures len { array_vec_len text.new ≡ array_vec_len text.old + 10 }
{
    put_four(date.year, text);
    text.push(b'-');
    put_two(date.month, text);
    text.push(b'-');
    put_two(date.day, text);
}

/// `10/Oct/2000`.
pub fn put_named_date(date: CivilDate, text: &mut Text)
    requires date { IsDate date }
    requires room { array_vec_len text.old ≤ 21 }
    ensures items { text.new.items ≡ text.old.items ++ named_date_text date }
    ensures len { array_vec_len text.new ≡ array_vec_len text.old + 11 }
{
    put_two(date.day, text);
    text.push(b'/');
    put_month_name(date.month, text);
    text.push(b'/');
    put_four(date.year, text);
}

/// `13:55:36`.
pub fn put_clock(second: u32, text: &mut Text)
    requires second { second < 86400 }
    requires room { array_vec_len text.old ≤ 24 }
    ensures items { text.new.items ≡ text.old.items ++ clock_text second }
    ensures len { array_vec_len text.new ≡ array_vec_len text.old + 8 }
{
    put_two(second / 3600, text);
    text.push(b':');
    put_two(second / 60 % 60, text);
    text.push(b':');
    put_two(second % 60, text);
}

/// The letter where the test holds.
pub fn put_if(test: bool, letter: u8, text: &mut Text)
    requires { array_vec_len text.old ≤ 31 }
    ensures items { text.new.items ≡ text.old.items ++ letter_if test letter }
    ensures len { array_vec_len text.new ≤ array_vec_len text.old + 1 }
{
    if test {
        text.push(letter);
    }
}

fn sign_of(offset: i16) -> u8
    ensures { result ≡ sign_letter offset }
{
    if offset < 0 { b'-' } else { b'+' }
}

/// `-0700` or, with a colon, `-07:00`.
pub fn put_offset(colon: bool, offset: i16, text: &mut Text)
    requires offset { IsOffset offset }
    requires room { array_vec_len text.old ≤ 26 }
    ensures items { text.new.items ≡ text.old.items ++ offset_text colon offset }
    ensures len { array_vec_len text.new ≤ array_vec_len text.old + 6 }
{
    let minutes = offset.unsigned_abs() as u32;
    text.push(sign_of(offset));
    put_two(minutes / 60, text);
    put_if(colon, b':', text);
    put_two(minutes % 60, text);
}
