//! The domain of the numbers of a range, with zero as `-`.

ghost use Rattle.std.specs.Prelude.{◌≡◌, ◌≤ℤ◌, pos};
ghost use Rattle.lf_number.specs.Numbers.{HoldsNumber, num_text, dash_text, dash_size};
ghost use Rattle.lf_number.specs.Machines.{dash_machine, exchanged as exchanged_of};

use crate::num_range::{NumRange, write_number};
use crate::reading::{candidate, is_between};
use lf_core::{Bytes, Domain, OutOfMemory, Value};
use std::alloc::Global;

/// The whole numbers from `lo` to `hi`, in decimal, but zero as `-`.
#[derive(Clone, Copy, Debug, PartialEq, Eq)]
pub struct DashZero {
    pub lo: i64,
    pub hi: i64,
    ghost not_negative: { pos 0 ≤ℤ lo },
}

impl DashZero {
    /// The same range, with zero as `0`.
    fn numbers(self) -> NumRange
        ensures lo { result.lo ≡ self.lo }
        ensures hi { result.hi ≡ self.hi }
    {
        NumRange {
            lo: self.lo,
            hi: self.hi,
        }
    }
}

/// The letter with `-` and `0` exchanged.
fn exchanged(letter: u8) -> u8
    ensures { result ≡ exchanged_of letter }
{
    match letter {
        b'-' => b'0',
        b'0' => b'-',
        other => other,
    }
}

impl Domain for DashZero {
    ghost use Rattle.lf_number.specs.DashLaws.{dash_laws};

    ghost holds = { λ d. HoldsNumber d.lo d.hi };

    ghost plain = { λ _. num_text dash_text };

    ghost machine = { λ d. dash_machine d.lo d.hi };

    ghost size = { λ d. dash_size d.lo d.hi };

    ghost laws = { λ d. dash_laws d.lo d.hi d.not_negative };

    fn check(&self, v: &Value) -> bool {
        is_between(self.lo, self.hi, v)
    }

    fn write_plain(&self, v: &Value, into: &mut Bytes) -> Result<(), OutOfMemory> {
        match v {
            Value::Num(0) => into.push(b'-'),
            Value::Num(n) => write_number(*n, into),
            _ => Ok(()),
        }
    }

    fn read_plain(&self, alloc: Global, text: &[u8]) -> Result<Option<Value>, OutOfMemory> {
        let Some(value) = candidate(10, self.lo, self.hi, text) else {
            return Ok(None);
        };
        let mut plain = Bytes::new(alloc);
        self.write_plain(&value, &mut plain)?;
        if plain.as_slice() == text {
            Ok(Some(value))
        } else {
            Ok(None)
        }
    }

    fn points(&self) -> u32 {
        self.numbers().half_points()
    }

    fn start(&self) -> u32 {
        0
    }

    fn step(&self, point: u32, letter: u8) -> Option<u32> {
        let read = if point == 0 {
            exchanged(letter)
        } else {
            letter
        };
        self.numbers().after(point, read)
    }

    fn ends(&self, point: u32) -> bool {
        self.numbers().is_end(point)
    }
}
