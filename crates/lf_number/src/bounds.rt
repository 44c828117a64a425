//! How the digits of a number stand to those of two bounds, as points of a machine.

ghost use Rattle.std.specs.Prelude.{◌≡◌, ◌+◌, ◌*◌, ◌/◌, ◌%◌, ◌≤◌, IfSome, cond, ltb};
ghost use Rattle.lf_number.specs.Numbers.{IsRadix, width as width_of};
ghost use Rattle.lf_number.specs.Machines.{front as front_of, comparison as comparison_of, push_side as push_side_of, next_side as next_side_of, whole_side as whole_side_of, place as place_of, free_first, free_next, counted_place as counted_place_of, in_range as in_range_of};

use crate::digits::{front, width};

/// 0, 1 and 2 for less, equal and greater.
pub fn comparison(p: u64, q: u64) -> u32
    ensures exact { result ≡ comparison_of p q }
    ensures most { result ≤ 2 }
{
    if p < q {
        0
    } else if q < p {
        2
    } else {
        1
    }
}

/// How a number stands to the bound without its last `rest` digits, after one digit more of both.
pub fn push_side(radix: u64, bound: u64, rest: u32, how: u32, digit: u64) -> u32
    requires radix_is { IsRadix radix }
    requires how_is { how ≤ 2 }
    ensures exact { result ≡ push_side_of how digit (front_of radix bound rest % radix) }
    ensures most { result ≤ 2 }
{
    if how != 1 {
        return how;
    }
    comparison(digit, front(radix, bound, rest) % radix)
}

/// How so many digits stand to the first digits of the bound, after one digit more.
fn next_side(radix: u64, bound: u64, all: u32, digits: u32, how: u32, digit: u64) -> u32
    requires radix_is { IsRadix radix }
    requires all_is { all ≡ width_of radix bound }
    requires how_is { how ≤ 2 }
    ensures exact { result ≡ next_side_of radix bound digits how digit }
    ensures most { result ≤ 2 }
{
    if digits >= all {
        return 2;
    }
    push_side(radix, bound, all - (digits + 1), how, digit)
}

/// How a number of so many digits stands to a bound of `all` digits.
fn whole_side(all: u32, digits: u32, how: u32) -> u32
    requires { how ≤ 2 }
    ensures exact { result ≡ cond (ltb digits all) 0 how }
    ensures most { result ≤ 2 }
{
    if digits < all { 0 } else { how }
}

/// The place after so many digits, whose number isn't known before they end.
fn place(digits: u32, to_lo: u32, to_hi: u32) -> u32
    requires least { 1 ≤ digits }
    requires few { digits ≤ 256 }
    requires lo_is { to_lo ≤ 2 }
    requires hi_is { to_hi ≤ 2 }
    ensures exact { result ≡ place_of digits to_lo to_hi }
    ensures most { result ≤ 9 * digits + 1 }
{
    9 * digits + 3 * to_lo + to_hi - 7
}

/// The place where so many digits are to come.
pub fn counted_place(rest: u32, to_lo: u32, to_hi: u32) -> u32
    requires few { rest ≤ 511 }
    requires lo_is { to_lo ≤ 2 }
    requires hi_is { to_hi ≤ 2 }
    ensures exact { result ≡ counted_place_of rest to_lo to_hi }
    ensures most { result ≤ 9 * rest + 8 }
{
    9 * rest + 3 * to_lo + to_hi
}

/// Two bounds, the radix of their digits, and how many digits each has.
#[derive(Clone, Copy)]
pub struct Bounds {
    pub radix: u64,
    pub lo: u64,
    pub hi: u64,
    pub lo_width: u32,
    pub hi_width: u32,
    ghost radix_is: { IsRadix radix },
    ghost lo_width_is: { lo_width ≡ width_of radix lo },
    ghost hi_width_is: { hi_width ≡ width_of radix hi },
}

impl Bounds {
    /// The bounds, with their digits counted.
    pub fn new(radix: u64, lo: u64, hi: u64) -> Bounds
        requires { IsRadix radix }
        ensures radix { result.radix ≡ radix }
        ensures lo { result.lo ≡ lo }
        ensures hi { result.hi ≡ hi }
        ensures least { 1 ≤ result.hi_width }
        ensures most_lo { result.lo_width ≤ 20 }
        ensures most_hi { result.hi_width ≤ 20 }
    {
        Bounds {
            radix,
            lo,
            hi,
            lo_width: width(radix, lo),
            hi_width: width(radix, hi),
        }
    }

    /// The place after a first digit that is not zero.
    pub fn first(self, digit: u64) -> u32
        ensures exact { result ≡ free_first self.radix self.lo self.hi digit }
        ensures most { result ≤ 10 }
    {
        let to_lo = next_side(self.radix, self.lo, self.lo_width, 0, 1, digit);
        let to_hi = next_side(self.radix, self.hi, self.hi_width, 0, 1, digit);
        place(1, to_lo, to_hi)
    }

    /// The place after a further digit, where a number may have so many.
    pub fn next(self, most: u32, at: u32, digit: u64) -> Option<u32>
        requires few { most ≤ 255 }
        requires small { at ≤ 4596 }
        ensures exact { result ≡ free_next self.radix most self.lo self.hi at digit }
        ensures most { IfSome result (λ after. after ≤ 9 * most + 1) }
    {
        let digits = (at + 7) / 9;
        if digits >= most {
            return None;
        }
        let lo_side = (at + 7) % 9 / 3;
        let hi_side = (at + 7) % 3;
        let to_lo = next_side(self.radix, self.lo, self.lo_width, digits, lo_side, digit);
        let to_hi = next_side(self.radix, self.hi, self.hi_width, digits, hi_side, digit);
        Some(place(digits + 1, to_lo, to_hi))
    }

    /// How the number whose digits end at the place stands to the lower and to the upper bound.
    pub fn whole(self, at: u32) -> (u32, u32)
        requires { at ≤ 4596 }
        ensures lo { result.0 ≡ whole_side_of self.radix self.lo ((at + 7) / 9) ((at + 7) % 9 / 3) }
        ensures hi { result.1 ≡ whole_side_of self.radix self.hi ((at + 7) / 9) ((at + 7) % 3) }
        ensures most_lo { result.0 ≤ 2 }
        ensures most_hi { result.1 ≤ 2 }
    {
        let digits = (at + 7) / 9;
        let to_lo = whole_side(self.lo_width, digits, (at + 7) % 9 / 3);
        let to_hi = whole_side(self.hi_width, digits, (at + 7) % 3);
        (to_lo, to_hi)
    }
}

/// Whether a number with these comparisons to the bounds' magnitudes is in the range.
pub fn in_range(lo: i64, hi: i64, negative: bool, to_lo: u32, to_hi: u32) -> bool
    ensures { result ≡ in_range_of lo hi negative to_lo to_hi }
{
    if negative {
        lo < 0 && to_lo <= 1 && (hi >= 0 || to_hi >= 1)
    } else {
        (lo < 0 || to_lo >= 1) && hi >= 0 && to_hi <= 1
    }
}
