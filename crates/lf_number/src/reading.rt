//! How the values of a range of numbers are tested and read.

ghost use Rattle.std.specs.Prelude.{◌≡◌, ◌↔◌, ◌≤ℤ◌, pos, Some, IsTrue, IfSome, FitsSigned};
ghost use Rattle.std.specs.Int.{w64};
ghost use Rattle.lf_core.specs.declared.values.Value.{Value};
ghost use Rattle.lf_number.specs.Numbers.{IsRadix, IsBetween, HoldsNumber, magnitude as magnitude_of};
ghost use Rattle.lf_number.specs.Machines.{value_after};

use crate::digits::number_of;
use lf_core::Value;

/// Whether the value is a number from `lo` to `hi`.
pub fn is_between(lo: i64, hi: i64, v: &Value) -> bool
    ensures { IsTrue result ↔ HoldsNumber lo hi v.now }
{
    match v {
        Value::Num(n) => lo <= *n && *n <= hi,
        _ => false,
    }
}

/// The one number from `lo` to `hi`, not negative, that the digits of the text can write.
pub fn candidate(radix: u64, lo: i64, hi: i64, text: &[u8]) -> Option<Value>
    requires { IsRadix radix }
    ensures held { IfSome result (λ v. HoldsNumber lo hi v) }
    ensures only { (n : _) → FitsSigned w64 n → pos 0 ≤ℤ n → IsBetween lo hi n → value_after radix 0 text.now ≡ magnitude_of n → result ≡ Some (Value.Num n) }
{
    let value = number_of(radix, text);
    if value >= 1 << 63 {
        return None;
    }
    let n = value as i64;
    if n < lo {
        return None;
    }
    if n > hi {
        return None;
    }
    Some(Value::Num(n))
}
