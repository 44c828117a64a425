//! The domain of the numbers of a range, with leading zeros up to a width.

ghost use Rattle.std.specs.Prelude.{◌≡◌, ◌+◌, ◌-◌, ◌≤◌, ◌<◌, ◌≤ℤ◌, ◌++◌, length, drop, replicate, pos};
ghost use Rattle.lf_number.specs.Numbers.{IsRadix, HoldsNumber, num_text, padded_text, padded_size, padded_digits, magnitude as magnitude_of, digits, width as width_of};
ghost use Rattle.lf_number.specs.Machines.{padded_machine, padded_zero, padded_next, padded_ends};

use crate::bounds::{Bounds, comparison, counted_place, in_range};
use crate::digits::{digit_of, front, put_digits, put_last, width};
use crate::mixed::{MixedDigits, counted_done};
use crate::reading::{candidate, is_between};
use lf_core::{Bytes, Domain, OutOfMemory, Value};
use std::alloc::Global;

/// Ten, or sixteen with upper-case letters.
#[derive(Clone, Copy, Debug, PartialEq, Eq)]
pub enum Radix {
    Ten,
    Sixteen,
}

impl Radix {
    ghost use Rattle.lf_number.specs.Radix.{radix_of};

    fn value(self) -> u64
        ensures exact { result ≡ radix_of self }
        ensures radix_is { IsRadix result }
    {
        match self {
            Radix::Ten => 10,
            Radix::Sixteen => 16,
        }
    }
}

/// The whole numbers from `lo` to `hi`, with leading zeros only up to the width.
#[derive(Clone, Copy, Debug, PartialEq, Eq)]
pub struct Padded {
    pub radix: Radix,
    /// The least number of digits.
    pub width: u8,
    pub lo: i64,
    pub hi: i64,
    ghost not_negative: { pos 0 ≤ℤ lo },
}

impl Padded {
    ghost use Rattle.lf_number.specs.Radix.{radix_of};

    /// After a first digit zero the digits are counted, and else they are free.
    fn digits(self) -> MixedDigits
        ensures most { result.most ≡ padded_digits (radix_of self.radix) self.width self.hi }
        ensures radix { result.free.radix ≡ radix_of self.radix }
        ensures free_lo { result.free.lo ≡ magnitude_of self.lo }
        ensures free_hi { result.free.hi ≡ magnitude_of self.hi }
        ensures lo { result.lo ≡ magnitude_of self.lo }
        ensures hi { result.hi ≡ magnitude_of self.hi }
        ensures zero { result.zero ≡ padded_zero (radix_of self.radix) self.width self.lo self.hi }
    {
        let least = self.width as u32;
        let lo = self.lo.unsigned_abs();
        let hi = self.hi.unsigned_abs();
        let free = Bounds::new(self.radix.value(), lo, hi);
        let most = least.max(free.hi_width);
        let rest = least.saturating_sub(1);
        let to_lo = comparison(0, front(free.radix, lo, rest));
        let to_hi = comparison(0, front(free.radix, hi, rest));
        MixedDigits {
            most,
            free,
            lo,
            hi,
            zero: 9 * most + 2 + counted_place(rest, to_lo, to_hi),
        }
    }

    fn after(self, at: u32, letter: u8) -> Option<u32>
        requires { at < padded_size (radix_of self.radix) self.width self.hi }
        ensures { result ≡ padded_next (radix_of self.radix) self.width self.lo self.hi at letter }
    {
        let digit = digit_of(letter);
        if digit < self.radix.value() {
            return self.digits().after(at, digit);
        }
        None
    }

    fn is_end(self, at: u32) -> bool
        requires { at < padded_size (radix_of self.radix) self.width self.hi }
        ensures { result ≡ padded_ends (radix_of self.radix) self.width self.lo self.hi at }
    {
        if at == 0 {
            return false;
        }
        let digits = self.digits();
        let base = digits.base();
        if at >= base {
            return counted_done(self.lo, self.hi, at - base);
        }
        if (at + 7) / 9 < self.width as u32 {
            return false;
        }
        let (to_lo, to_hi) = digits.free.whole(at);
        in_range(self.lo, self.hi, false, to_lo, to_hi)
    }
}

/// Puts the text at the end of the buffer, and tells where it begins.
fn put_padded(radix: u64, least: usize, number: u64, buffer: &mut [u8]) -> usize
    requires radix_is { IsRadix radix }
    requires few { least ≤ 255 }
    requires room { length buffer.old ≡ 256 }
    ensures digits { drop result buffer.new ≡ replicate (least - width_of radix number) 48 ++ digits radix number }
    ensures most { result ≤ 256 }
{
    if (width(radix, number) as usize) < least {
        put_last(radix, number, least, 256, buffer);
        return 256 - least;
    }
    put_digits(radix, number, 256, buffer)
}

impl Domain for Padded {
    ghost use Rattle.lf_number.specs.Radix.{radix_of};
    ghost use Rattle.lf_number.specs.RadixLaws.{radix_is};
    ghost use Rattle.lf_number.specs.PaddedLaws.{padded_laws};

    ghost holds = { λ d. HoldsNumber d.lo d.hi };

    ghost plain = { λ d. num_text (padded_text (radix_of d.radix) d.width) };

    ghost machine = { λ d. padded_machine (radix_of d.radix) d.width d.lo d.hi };

    ghost size = { λ d. padded_size (radix_of d.radix) d.width d.hi };

    ghost laws = { λ d. padded_laws (radix_of d.radix) (radix_is d.radix) d.width d.lo d.hi d.not_negative };

    fn check(&self, v: &Value) -> bool {
        is_between(self.lo, self.hi, v)
    }

    fn write_plain(&self, v: &Value, into: &mut Bytes) -> Result<(), OutOfMemory> {
        match v {
            Value::Num(n) => {
                let mut buffer = [0; 256];
                let least = self.width as usize;
                let at = put_padded(self.radix.value(), least, n.unsigned_abs(), &mut buffer);
                into.extend(&buffer[at..])
            }
            _ => Ok(()),
        }
    }

    fn read_plain(&self, alloc: Global, text: &[u8]) -> Result<Option<Value>, OutOfMemory> {
        let Some(value) = candidate(self.radix.value(), self.lo, self.hi, text) else {
            return Ok(None);
        };
        let mut plain = Bytes::new(alloc);
        self.write_plain(&value, &mut plain)?;
        if plain.as_slice() == text {
            Ok(Some(value))
        } else {
            Ok(None)
        }
    }

    fn points(&self) -> u32 {
        18 * self.digits().most + 2
    }

    fn start(&self) -> u32 {
        0
    }

    fn step(&self, point: u32, letter: u8) -> Option<u32> {
        self.after(point, letter)
    }

    fn ends(&self, point: u32) -> bool {
        self.is_end(point)
    }
}
