//! The domain of the numbers of a range, in thousandths.

ghost use Rattle.std.specs.Prelude.{◌≡◌, ◌+◌, ◌/◌, ◌≤◌, ◌<◌, ◌≤ℤ◌, ◌++◌, ◌∷◌, length, drop, pos};
ghost use Rattle.lf_number.specs.Numbers.{HoldsNumber, num_text, thousandths_text, thousandths_size, whole_digits, magnitude as magnitude_of, decimal, last_digits};
ghost use Rattle.lf_number.specs.Machines.{thousandths_machine, thousandths_point, thousandths_next, thousandths_ends};

use crate::bounds::{Bounds, comparison, counted_place};
use crate::digits::{digit_of, put_digits, put_last};
use crate::mixed::{MixedDigits, counted_done};
use crate::reading::{candidate, is_between};
use lf_core::{Bytes, Domain, OutOfMemory, Value};
use std::alloc::Global;

/// The whole numbers from `lo` to `hi`, in thousandths: the whole part, a point and three digits.
#[derive(Clone, Copy, Debug, PartialEq, Eq)]
pub struct Fixed3 {
    /// The least number, in thousandths.
    pub lo: i64,
    /// The greatest number, in thousandths.
    pub hi: i64,
    ghost not_negative: { pos 0 ≤ℤ lo },
}

impl Fixed3 {
    /// The whole part's digits are free, and those after the point counted.
    fn digits(self) -> MixedDigits
        ensures most { result.most ≡ whole_digits self.hi }
        ensures few { result.most ≤ 20 }
        ensures radix { result.free.radix ≡ 10 }
        ensures free_lo { result.free.lo ≡ magnitude_of self.lo / 1000 }
        ensures free_hi { result.free.hi ≡ magnitude_of self.hi / 1000 }
        ensures lo { result.lo ≡ magnitude_of self.lo }
        ensures hi { result.hi ≡ magnitude_of self.hi }
        ensures zero { result.zero ≡ 1 }
    {
        let lo = self.lo.unsigned_abs();
        let hi = self.hi.unsigned_abs();
        let whole = Bounds::new(10, lo / 1000, hi / 1000);
        MixedDigits {
            most: whole.hi_width,
            free: whole,
            lo,
            hi,
            zero: 1,
        }
    }

    /// The point after `.`.
    fn after_point(self, at: u32) -> Option<u32>
        ensures { result ≡ thousandths_point self.lo self.hi at }
    {
        if at == 0 {
            return None;
        }
        let digits = self.digits();
        let whole = digits.free;
        if at == 1 {
            return Some(
                digits.base() + counted_place(3, comparison(0, whole.lo), comparison(0, whole.hi)),
            );
        }
        if at < digits.base() {
            let (to_lo, to_hi) = whole.whole(at);
            return Some(digits.base() + counted_place(3, to_lo, to_hi));
        }
        None
    }

    fn after(self, at: u32, letter: u8) -> Option<u32>
        requires { at < thousandths_size self.hi }
        ensures { result ≡ thousandths_next self.lo self.hi at letter }
    {
        let digit = digit_of(letter);
        if digit < 10 {
            return self.digits().after(at, digit);
        }
        if letter == b'.' {
            return self.after_point(at);
        }
        None
    }

    fn is_end(self, at: u32) -> bool
        requires { at < thousandths_size self.hi }
        ensures { result ≡ thousandths_ends self.lo self.hi at }
    {
        let base = self.digits().base();
        if at < base {
            return false;
        }
        counted_done(self.lo, self.hi, at - base)
    }
}

/// Puts the text at the end of the buffer, and tells where it begins.
fn put_thousandths(number: u64, buffer: &mut [u8]) -> usize
    requires { length buffer.old ≡ 32 }
    ensures digits { drop result buffer.new ≡ decimal (number / 1000) ++ 46 ∷ last_digits 10 3 number }
    ensures most { result ≤ 32 }
{
    put_last(10, number, 3, 32, buffer);
    buffer[28] = b'.';
    put_digits(10, number / 1000, 28, buffer)
}

impl Domain for Fixed3 {
    ghost use Rattle.lf_number.specs.ThousandthsLaws.{thousandths_laws};

    ghost holds = { λ d. HoldsNumber d.lo d.hi };

    ghost plain = { λ _. num_text thousandths_text };

    ghost machine = { λ d. thousandths_machine d.lo d.hi };

    ghost size = { λ d. thousandths_size d.hi };

    ghost laws = { λ d. thousandths_laws d.lo d.hi d.not_negative };

    fn check(&self, v: &Value) -> bool {
        is_between(self.lo, self.hi, v)
    }

    fn write_plain(&self, v: &Value, into: &mut Bytes) -> Result<(), OutOfMemory> {
        match v {
            Value::Num(n) => {
                let mut buffer = [0; 32];
                let at = put_thousandths(n.unsigned_abs(), &mut buffer);
                into.extend(&buffer[at..])
            }
            _ => Ok(()),
        }
    }

    fn read_plain(&self, alloc: Global, text: &[u8]) -> Result<Option<Value>, OutOfMemory> {
        let Some(value) = candidate(10, self.lo, self.hi, text) else {
            return Ok(None);
        };
        let mut plain = Bytes::new(alloc);
        self.write_plain(&value, &mut plain)?;
        if plain.as_slice() == text {
            Ok(Some(value))
        } else {
            Ok(None)
        }
    }

    fn points(&self) -> u32 {
        9 * self.digits().most + 38
    }

    fn start(&self) -> u32 {
        0
    }

    fn step(&self, point: u32, letter: u8) -> Option<u32> {
        self.after(point, letter)
    }

    fn ends(&self, point: u32) -> bool {
        self.is_end(point)
    }
}
