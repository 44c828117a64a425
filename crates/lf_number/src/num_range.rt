//! The domain of the numbers of a range, in decimal.

ghost use Rattle.std.specs.Prelude.{IsTrue, ◌↔◌, ◌≡◌, ◌≢◌, ◌+◌, ◌-◌, ◌≤◌, ◌<◌, ◌++◌, MatchOption, FitsSigned, OnOk, OnErr};
ghost use Rattle.std.specs.Int.{w64};
ghost use Rattle.std.specs.List.{list_all};
ghost use Rattle.lf_number.specs.Numbers.{HoldsNumber, num_text, number_text, number_size, is_decimal_digit, is_plain_digits, magnitude as magnitude_of, is_negative, half_points};
ghost use Rattle.lf_number.specs.Machines.{has_minus as has_minus_of, sign_base, number_machine, number_digit, number_done, number_next, number_ends};

use crate::bounds::{Bounds, comparison, in_range};
use crate::digits::{digit_of, number_of};
use crate::reading::is_between;
use itoa::Buffer;
use lf_core::{Bytes, Domain, OutOfMemory, Value};
use std::alloc::Global;

/// The whole numbers from `lo` to `hi`, in decimal.
#[derive(Clone, Copy, Debug, PartialEq, Eq)]
pub struct NumRange {
    pub lo: i64,
    pub hi: i64,
}

impl NumRange {
    /// The decimal digits of the bounds' magnitudes.
    fn bounds(self) -> Bounds
        ensures radix { result.radix ≡ 10 }
        ensures lo { result.lo ≡ magnitude_of self.lo }
        ensures hi { result.hi ≡ magnitude_of self.hi }
        ensures least { 1 ≤ result.hi_width }
        ensures most_lo { result.lo_width ≤ 20 }
        ensures most_hi { result.hi_width ≤ 20 }
    {
        Bounds::new(10, self.lo.unsigned_abs(), self.hi.unsigned_abs())
    }

    /// How many points the numbers of one sign have.
    pub fn half_points(self) -> u32
        ensures exact { result ≡ half_points self.lo self.hi }
        ensures least { 11 ≤ result }
        ensures most { result ≤ 182 }
    {
        let bounds = self.bounds();
        9 * bounds.lo_width.max(bounds.hi_width) + 2
    }

    /// The point after a digit, among those of one sign, which begin at the base.
    fn after_digit(self, base: u32, negative: bool, at: u32, digit: u64) -> Option<u32>
        requires low { base ≤ 182 }
        requires few { at ≤ 182 }
        ensures { result ≡ number_digit self.lo self.hi base negative at digit }
    {
        if at == 1 {
            return None;
        }
        if at == 0 && digit == 0 {
            return if negative { None } else { Some(1) };
        }
        let bounds = self.bounds();
        if at == 0 {
            return Some(base + bounds.first(digit));
        }
        let most = bounds.lo_width.max(bounds.hi_width);
        match bounds.next(most, at, digit) {
            Some(after) => Some(base + after),
            None => None,
        }
    }

    /// Whether the number whose digits end at a point of one sign is in the range.
    fn is_done(self, negative: bool, at: u32) -> bool
        requires few { at ≤ 182 }
        ensures { result ≡ number_done self.lo self.hi negative at }
    {
        if at == 0 {
            return false;
        }
        if at == 1 {
            let to_lo = comparison(0, self.lo.unsigned_abs());
            let to_hi = comparison(0, self.hi.unsigned_abs());
            return in_range(self.lo, self.hi, negative, to_lo, to_hi);
        }
        let (to_lo, to_hi) = self.bounds().whole(at);
        in_range(self.lo, self.hi, negative, to_lo, to_hi)
    }

    /// How many points the machine has.
    pub fn all_points(self) -> u32
        ensures { result ≡ number_size self.lo self.hi }
    {
        if self.lo < 0 {
            2 * self.half_points()
        } else {
            self.half_points()
        }
    }

    /// Where the points of the point's sign begin: those of negative numbers come last.
    fn base_of(self, point: u32) -> u32
        requires { point < number_size self.lo self.hi }
        ensures exact { result ≡ sign_base self.lo self.hi point }
        ensures low { result ≤ 182 }
        ensures few { point - result ≤ 182 }
    {
        if self.lo >= 0 {
            return 0;
        }
        let half = self.half_points();
        if point < half { 0 } else { half }
    }

    /// The point after the letter.
    pub fn after(self, point: u32, letter: u8) -> Option<u32>
        requires { point < number_size self.lo self.hi }
        ensures { result ≡ number_next self.lo self.hi point letter }
    {
        let digit = digit_of(letter);
        if digit < 10 {
            let base = self.base_of(point);
            return self.after_digit(base, base > 0, point - base, digit);
        }
        if letter == b'-' && point == 0 && self.lo < 0 {
            Some(self.half_points())
        } else {
            None
        }
    }

    /// Whether a number in the range ends at the point.
    pub fn is_end(self, point: u32) -> bool
        requires { point < number_size self.lo self.hi }
        ensures { result ≡ number_ends self.lo self.hi point }
    {
        let base = self.base_of(point);
        self.is_done(base > 0, point - base)
    }
}

/// Adds the number's text.
#[tactic(auto, using(crate::proofs::StdDecimals::number_text_std))]
pub fn write_number(n: i64, into: &mut Bytes) -> Result<(), OutOfMemory>
    ensures done { OnOk result (into.new ≡ into.old ++ number_text n) }
    ensures failed { OnErr result (into.new ≡ into.old) }
{
    let mut buffer = Buffer::new();
    into.extend(buffer.format(n).as_bytes())
}

/// Whether the text is digits of which the first isn't zero.
fn has_plain_digits(text: &[u8]) -> bool
    ensures { result ≡ is_plain_digits text.now }
{
    let Some((first, rest)) = text.split_first() else {
        return false;
    };
    if *first < b'1' {
        return false;
    }
    if b'9' < *first {
        return false;
    }
    are_digits(rest)
}

fn are_digits(text: &[u8]) -> bool
    ensures { result ≡ list_all is_decimal_digit text.now }
{
    text.iter().all(|c| b'0' <= *c && *c <= b'9')
}

/// Whether this is the number's text. Plain digits are compared by their value, without printing it.
fn is_text_of(n: i64, text: &[u8]) -> bool
    ensures { IsTrue result ↔ (number_text n ≡ text.now) }
{
    if !has_plain_digits(text) {
        return is_printed_as(n, text);
    }
    if n <= 0 {
        return false;
    }
    n.unsigned_abs() == number_of(10, text)
}

fn is_printed_as(n: i64, text: &[u8]) -> bool
    ensures { IsTrue result ↔ (number_text n ≡ text.now) }
{
    let mut buffer = Buffer::new();
    buffer.format(n).as_bytes() == text
}

/// The number with this sign and magnitude.
fn signed(negative: bool, value: u64) -> Option<i64>
    ensures { MatchOption result
        ((n : _) → FitsSigned w64 n → is_negative n ≡ negative → magnitude_of n ≢ value)
        (λ n. (is_negative n ≡ negative) × (magnitude_of n ≡ value)) }
{
    if negative {
        if value == 0 || value > 1 << 63 {
            None
        } else {
            Some(-1 - ((value - 1) as i64))
        }
    } else if value < 1 << 63 {
        Some(value as i64)
    } else {
        None
    }
}

/// Whether the text begins with `-`.
fn has_minus(text: &[u8]) -> bool
    ensures { result ≡ has_minus_of text.now }
{
    match text.split_first() {
        Some((first, _rest)) => *first == b'-',
        None => false,
    }
}

/// The one number whose text this can be.
fn candidate(text: &[u8]) -> Option<i64>
    ensures { (n : _) → FitsSigned w64 n → number_text n ≡ text.now → result ≡ Some n }
{
    signed(has_minus(text), number_of(10, text))
}

impl Domain for NumRange {
    ghost use Rattle.lf_number.specs.NumberLaws.{number_laws};

    ghost holds = { λ d. HoldsNumber d.lo d.hi };

    ghost plain = { λ _. num_text number_text };

    ghost machine = { λ d. number_machine d.lo d.hi };

    ghost size = { λ d. number_size d.lo d.hi };

    ghost laws = { λ d. number_laws d.lo d.hi };

    fn check(&self, v: &Value) -> bool {
        is_between(self.lo, self.hi, v)
    }

    fn write_plain(&self, v: &Value, into: &mut Bytes) -> Result<(), OutOfMemory> {
        match v {
            Value::Num(n) => write_number(*n, into),
            _ => Ok(()),
        }
    }

    fn read_plain(&self, _alloc: Global, text: &[u8]) -> Result<Option<Value>, OutOfMemory> {
        let lo = self.lo;
        let hi = self.hi;
        let n = match candidate(text) {
            Some(n) => n,
            None => return Ok(None),
        };
        if n < lo {
            return Ok(None);
        }
        if n > hi {
            return Ok(None);
        }
        if is_text_of(n, text) {
            Ok(Some(Value::Num(n)))
        } else {
            Ok(None)
        }
    }

    fn points(&self) -> u32 {
        self.all_points()
    }

    fn start(&self) -> u32 {
        0
    }

    fn step(&self, point: u32, letter: u8) -> Option<u32> {
        self.after(point, letter)
    }

    fn ends(&self, point: u32) -> bool {
        self.is_end(point)
    }
}
