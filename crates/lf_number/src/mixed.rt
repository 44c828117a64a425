//! Digits that are first free and then counted, as points of a machine.

ghost use Rattle.std.specs.Prelude.{◌≡◌, ◌+◌, ◌-◌, ◌*◌, ◌≤◌};
ghost use Rattle.lf_number.specs.Machines.{mixed_digit, counted_next as counted_next_of, counted_done as counted_done_of};

use crate::bounds::{Bounds, counted_place, in_range, push_side};

/// The free digits with their bounds, at most so many, the bounds of the counted ones, and the point
/// after a first zero.
#[derive(Clone, Copy)]
pub struct MixedDigits {
    /// The most free digits.
    pub most: u32,
    /// The bounds of what the free digits write, and the radix of all digits.
    pub free: Bounds,
    /// The least number that may end in counted digits.
    pub lo: u64,
    /// The greatest number that may end in counted digits.
    pub hi: u64,
    /// The point after a first digit zero.
    pub zero: u32,
    ghost least: { 1 ≤ most },
    ghost few: { most ≤ 255 },
}

impl MixedDigits {
    /// The first point of the counted digits.
    pub fn base(self) -> u32
        ensures { result ≡ 9 * self.most + 2 }
    {
        9 * self.most + 2
    }

    /// The point after a digit.
    pub fn after(self, at: u32, digit: u64) -> Option<u32>
        requires { at ≤ 4596 }
        ensures { result ≡ mixed_digit self.free.radix self.most self.free.lo self.free.hi
            self.lo self.hi self.zero at digit }
    {
        if at == 0 {
            if digit == 0 {
                return Some(self.zero);
            }
            return Some(self.free.first(digit));
        }
        if at == 1 {
            return None;
        }
        let base = self.base();
        if at < base {
            return self.free.next(self.most, at, digit);
        }
        self.counted_next(at - base, digit)
    }

    /// The point after a further digit, where the number of those to come is known.
    fn counted_next(self, at: u32, digit: u64) -> Option<u32>
        requires { at ≤ 4596 }
        ensures { result ≡ counted_next_of self.free.radix self.lo self.hi (9 * self.most + 2) at digit }
    {
        if at / 9 == 0 {
            return None;
        }
        let rest = at / 9 - 1;
        let radix = self.free.radix;
        let to_lo = push_side(radix, self.lo, rest, at % 9 / 3, digit);
        let to_hi = push_side(radix, self.hi, rest, at % 3, digit);
        Some(self.base() + counted_place(rest, to_lo, to_hi))
    }
}

/// Whether no digit is to come at this place of the counted digits, and the number is in the range.
pub fn counted_done(lo: i64, hi: i64, at: u32) -> bool
    ensures { result ≡ counted_done_of lo hi at }
{
    if at / 9 != 0 {
        return false;
    }
    in_range(lo, hi, false, at % 9 / 3, at % 3)
}
