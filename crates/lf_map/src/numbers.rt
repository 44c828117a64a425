//! The numbers of a field map.

ghost use Rattle.std.specs.Prelude.{◌≡◌, ◌<◌, ◌≤◌, ◌^◌, min, ℤ, pos, neg_ℤ};
ghost use Rattle.lf_syntax.specs.Leaf.{is_within};
ghost use Rattle.lf_map.specs.Letters.{digits_from, number_of, after_digits, int_of, divisor_of, minutes_of, offset_of};

use lf_expression::{Divisor, Offset};

/// Whether the byte is a digit.
pub(crate) fn is_digit(byte: u8) -> bool
    ensures { result ≡ is_within 48 57 byte }
{
    48 <= byte && byte <= 57
}

/// The number of the digits of `value` and those that the text begins with, or the greatest of 64 bits.
fn digits(value: u64, text: &[u8]) -> u64
    ensures { result ≡ min (digits_from value text.now) 18446744073709551615 }
{
    match text.split_first() {
        None => value,
        Some((digit, rest)) => {
            if !is_digit(*digit) {
                return value;
            }
            let more = value
                .saturating_mul(10)
                .saturating_add(digit.saturating_sub(48) as u64);
            digits(more, rest)
        }
    }
}

/// The number that the text begins with, up to the limit.
pub(crate) fn number(limit: u64, text: &[u8]) -> u64
    ensures { result ≡ number_of limit text.now }
{
    digits(0, text).min(limit)
}

/// What follows the digits that the text begins with.
pub(crate) fn after_digits(text: &[u8]) -> &[u8]
    ensures { result.now ≡ after_digits text.now }
{
    match text.split_first() {
        None => text,
        Some((digit, rest)) => {
            if !is_digit(*digit) {
                return text;
            }
            after_digits(rest)
        }
    }
}

/// The number with its sign.
pub(crate) fn int(text: &[u8]) -> i64
    ensures { result ≡ int_of text.now }
{
    let Some((first, rest)) = text.split_first() else {
        return 0;
    };
    if *first == b'-' {
        return negative(number(9223372036854775808, rest));
    }
    number(9223372036854775807, text) as i64
}

/// The number with a minus sign.
fn negative(magnitude: u64) -> i64
    requires { magnitude ≤ 9223372036854775808 }
    ensures { result ≡ neg_ℤ (pos magnitude) }
{
    if magnitude == 0 {
        return 0;
    }
    -1 - ((magnitude - 1) as i64)
}

pub(crate) fn divisor(text: &[u8]) -> Divisor
    ensures { result.value ≡ divisor_of text.now }
{
    let value = number(9223372036854775807, text).max(1) as i64;
    Divisor { value }
}

/// Two digits of hours and two of minutes, in minutes.
fn minutes(text: &[u8]) -> u64
    ensures value { result ≡ minutes_of text.now }
    ensures least { result ≤ 1439 }
{
    let digits = number(9999, text);
    (60 * (digits / 100) + digits % 100).min(1439)
}

pub(crate) fn offset(text: &[u8]) -> Offset
    ensures { result.minutes ≡ offset_of text.now }
{
    let Some((first, rest)) = text.split_first() else {
        return Offset { minutes: 0 };
    };
    let minutes = minutes(rest) as i16;
    if *first == b'-' {
        return Offset { minutes: -minutes };
    }
    Offset { minutes }
}
