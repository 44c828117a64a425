//! The places of a layout: one letter each, read with a small memory of what stood before.

ghost use Rattle.std.specs.Prelude.{◌≡◌, ◌+◌, ◌*◌, ◌<◌, ◌≤◌, Option, Some, None, IfSome, cond};
ghost use Rattle.lf_layout.specs.Places.{number_memories, after_number, century_class as century_class_of, after_year as after_year_of, is_leap_in as is_leap_in_of, after_name as after_name_of, is_digit as is_digit_of, place_memories, after_place};

use crate::calendar::days_of_month;
use crate::names::{ending, going_on, starting};

/// What a number of two digits is.
#[derive(Clone, Copy, Debug, PartialEq, Eq)]
pub enum Number {
    /// 00 to 23.
    Hour,
    /// 00 to 59: minutes, and seconds too.
    Minute,
    /// The first two digits of a year.
    Century,
    /// The last two digits of a year; the year 0000 is none.
    YearOfCentury,
    /// 01 to 12, in a year that is known to be leap or not.
    Month,
    /// A day of a month whose length is known.
    Day,
    /// 01 to 31, before the month's name.
    NamedDay,
    /// 00 to 23, after a sign.
    OffsetHour,
    /// 00 to 59, and not 00 after a minus sign and the hour 00.
    OffsetMinute,
}

/// A place of a layout. `Byte` keeps one of so many memories and `Forget` drops it; `Tens` and `Ones` are
/// the digits of a number; the letters of a month's name are three places.
#[derive(Clone, Copy, Debug, PartialEq, Eq)]
pub enum Place {
    Byte(u8, u32),
    Forget(u8, u32),
    /// Any digit, which no memory keeps.
    Digit,
    Tens(u32),
    Ones(Number),
    /// `+` or `-`, which is kept.
    Sign,
    NameFirst,
    NameSecond,
    NameThird,
}

fn when(test: bool, memory: u32) -> Option<u32>
    ensures { result ≡ cond test (Some memory) None }
{
    if test { Some(memory) } else { None }
}

/// 0 for the century 00, 1 for another that 4 divides, and 2 for the rest.
fn century_class(number: u32) -> u32
    ensures exact { result ≡ century_class_of number }
    ensures most { result ≤ 2 }
{
    if number == 0 {
        return 0;
    }
    if number % 4 == 0 { 1 } else { 2 }
}

fn is_leap_in(class: u32, number: u32) -> bool
    ensures { result ≡ is_leap_in_of class number }
{
    number % 4 == 0 && (number != 0 || class == 1)
}

/// The memory after the last two digits of a year; the year 0000 is none, and some must be leap.
fn after_year(must: u32, class: u32, number: u32) -> Option<u32>
    ensures exact { result ≡ after_year_of must class number }
    ensures most { IfSome result (λ memory. memory ≤ 1) }
{
    if class == 0 && number == 0 {
        return None;
    }
    if is_leap_in(class, number) {
        return Some(1);
    }
    if must == 1 { None } else { Some(0) }
}

/// The memory after a month's name; `over` tells by how many the day is over 28.
fn after_name(over: u32, month: u32) -> Option<u32>
    requires over { over ≤ 300 }
    requires month { month < 12 }
    ensures exact { result ≡ after_name_of over month }
    ensures most { IfSome result (λ memory. memory ≤ 1) }
{
    if 28 + over > days_of_month(true, month + 1) {
        return None;
    }
    if over == 1 && month == 1 {
        Some(1)
    } else {
        Some(0)
    }
}

fn is_digit(letter: u8) -> bool
    ensures { result ≡ is_digit_of letter }
{
    b'0' <= letter && letter <= b'9'
}

impl Number {
    /// How many memories there are before the number.
    fn memories(self) -> u32
        ensures exact { result ≡ number_memories self }
        ensures most { result ≤ 6 }
    {
        match self {
            Number::Century | Number::Month | Number::OffsetHour | Number::OffsetMinute => 2,
            Number::YearOfCentury => 6,
            Number::Day => 4,
            Number::Hour | Number::Minute | Number::NamedDay => 1,
        }
    }

    /// The memory after the number, and none where the number doesn't go there.
    fn after(self, memory: u32, number: u32) -> Option<u32>
        requires memory { memory ≤ 300 }
        requires number { number ≤ 99 }
        ensures exact { result ≡ after_number self memory number }
        ensures most { IfSome result (λ after. after ≤ 3000) }
    {
        match self {
            Number::Hour => when(number < 24, 0),
            Number::Minute => when(number < 60, 0),
            Number::Century => Some(3 * memory + century_class(number)),
            Number::YearOfCentury => after_year(memory / 3, memory % 3, number),
            Number::Month => when(
                1 <= number && number <= 12,
                days_of_month(memory == 1, number) - 28,
            ),
            Number::Day => when(1 <= number && number <= 28 + memory, 0),
            Number::NamedDay => when(1 <= number && number <= 31, number.saturating_sub(28)),
            Number::OffsetHour => {
                let zero = if memory == 1 && number == 0 { 1 } else { 0 };
                when(number < 24, zero)
            }
            Number::OffsetMinute => when(number < 60 && !(memory == 1 && number == 0), 0),
        }
    }
}

impl Place {
    /// How many memories the place may be read with.
    pub fn memories(self) -> u32
        ensures { result ≡ place_memories self }
    {
        match self {
            Place::Byte(_, memories) => memories,
            Place::Forget(_, memories) => memories,
            Place::Digit => 1,
            Place::Tens(memories) => memories,
            Place::Ones(number) => 10 * number.memories(),
            Place::Sign => 1,
            Place::NameFirst => 4,
            Place::NameSecond => 48,
            Place::NameThird => 48,
        }
    }

    /// The memory after the place's letter, and none where another letter stands there.
    pub fn after(self, memory: u32, letter: u8) -> Option<u32>
        requires { memory ≤ 300 }
        ensures exact { result ≡ after_place self memory letter }
        ensures most { IfSome result (λ after. after ≤ 4000) }
    {
        match self {
            Place::Byte(byte, _) => when(letter == byte, memory),
            Place::Forget(byte, _) => when(letter == byte, 0),
            Place::Digit => when(is_digit(letter), 0),
            Place::Tens(_) => after_tens(memory, letter),
            Place::Ones(number) => after_ones(number, memory, letter),
            Place::Sign => after_sign(letter),
            Place::NameFirst => after_first(memory, letter),
            Place::NameSecond => after_second(memory, letter),
            Place::NameThird => after_third(memory, letter),
        }
    }
}

fn after_tens(memory: u32, letter: u8) -> Option<u32>
    requires { memory ≤ 300 }
    ensures exact { result ≡ after_place (Place.Tens 1) memory letter }
    ensures most { IfSome result (λ after. after ≤ 4000) }
{
    if is_digit(letter) {
        return Some(10 * memory + (letter - b'0') as u32);
    }
    None
}

fn after_ones(number: Number, memory: u32, letter: u8) -> Option<u32>
    requires { memory ≤ 300 }
    ensures exact { result ≡ after_place (Place.Ones number) memory letter }
    ensures most { IfSome result (λ after. after ≤ 4000) }
{
    if is_digit(letter) {
        return number.after(memory / 10, 10 * (memory % 10) + (letter - b'0') as u32);
    }
    None
}

fn after_sign(letter: u8) -> Option<u32>
    ensures exact { result ≡ after_place Place.Sign 0 letter }
    ensures most { IfSome result (λ after. after ≤ 1) }
{
    if letter == b'+' {
        return Some(0);
    }
    when(letter == b'-', 1)
}

fn after_first(memory: u32, letter: u8) -> Option<u32>
    requires { memory ≤ 300 }
    ensures exact { result ≡ after_place Place.NameFirst memory letter }
    ensures most { IfSome result (λ after. after ≤ 4000) }
{
    match starting(letter) {
        Some(month) => Some(12 * memory + month),
        None => None,
    }
}

fn after_second(memory: u32, letter: u8) -> Option<u32>
    requires { memory ≤ 300 }
    ensures exact { result ≡ after_place Place.NameSecond memory letter }
    ensures most { IfSome result (λ after. after ≤ 4000) }
{
    match going_on(memory % 12, letter) {
        Some(month) => Some(12 * (memory / 12) + month),
        None => None,
    }
}

fn after_third(memory: u32, letter: u8) -> Option<u32>
    requires { memory ≤ 300 }
    ensures exact { result ≡ after_place Place.NameThird memory letter }
    ensures most { IfSome result (λ after. after ≤ 4000) }
{
    match ending(memory % 12, letter) {
        Some(month) => after_name(memory / 12, month),
        None => None,
    }
}
