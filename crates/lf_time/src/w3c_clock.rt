//! The domain of times of the day, as the W3C's draft and IIS write them.

ghost use Rattle.lf_layout.specs.Layouts.{HoldsClock, time_text};
ghost use Rattle.lf_layout.specs.Places.{clock_places, places_machine};

use crate::tables::clock;
use lf_core::{Bytes, Domain, OutOfMemory, Value};
use lf_layout::{is_last, next_point, point_count, read_clock, write_clock};
use std::alloc::Global;

/// Times of the day, like `13:55:36`.
#[derive(Clone, Copy, Debug, PartialEq, Eq)]
pub struct W3cClock;

impl Domain for W3cClock {
    ghost use Rattle.lf_layout.specs.DomainLaws.{clock_laws};

    ghost holds = { λ _. HoldsClock };

    ghost plain = { λ _. time_text };

    ghost machine = { λ _. places_machine clock_places };

    ghost size = { λ _. 300 };

    ghost laws = { λ _. clock_laws };

    fn check(&self, value: &Value) -> bool {
        match value {
            Value::Clock(second) => *second < 86_400,
            _ => false,
        }
    }

    fn write_plain(&self, value: &Value, into: &mut Bytes) -> Result<(), OutOfMemory> {
        write_clock(value, into)
    }

    fn read_plain(&self, _alloc: Global, text: &[u8]) -> Result<Option<Value>, OutOfMemory> {
        Ok(read_clock(clock(), text))
    }

    fn points(&self) -> u32 {
        point_count(clock())
    }

    fn start(&self) -> u32 {
        0
    }

    fn step(&self, point: u32, letter: u8) -> Option<u32> {
        next_point(clock(), point, letter)
    }

    fn ends(&self, point: u32) -> bool {
        is_last(clock(), point)
    }
}
