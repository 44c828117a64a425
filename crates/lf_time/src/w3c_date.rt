//! The domain of days, as the W3C's draft and IIS write them.

ghost use Rattle.lf_layout.specs.Layouts.{HoldsDay, day_text};
ghost use Rattle.lf_layout.specs.Places.{iso_date_places, places_machine};

use crate::tables::iso_date;
use lf_core::{Bytes, Domain, OutOfMemory, Value};
use lf_layout::{is_day, is_last, next_point, point_count, read_day, write_day};
use std::alloc::Global;

/// Days of the years 0001 to 9999, like `2000-10-10`.
#[derive(Clone, Copy, Debug, PartialEq, Eq)]
pub struct W3cDate;

impl Domain for W3cDate {
    ghost use Rattle.lf_layout.specs.DomainLaws.{day_laws};

    ghost holds = { λ _. HoldsDay };

    ghost plain = { λ _. day_text };

    ghost machine = { λ _. places_machine iso_date_places };

    ghost size = { λ _. 300 };

    ghost laws = { λ _. day_laws };

    fn check(&self, value: &Value) -> bool {
        match value {
            Value::Day(day) => is_day(*day),
            _ => false,
        }
    }

    fn write_plain(&self, value: &Value, into: &mut Bytes) -> Result<(), OutOfMemory> {
        write_day(value, into)
    }

    fn read_plain(&self, _alloc: Global, text: &[u8]) -> Result<Option<Value>, OutOfMemory> {
        Ok(read_day(iso_date(), text))
    }

    fn points(&self) -> u32 {
        point_count(iso_date())
    }

    fn start(&self) -> u32 {
        0
    }

    fn step(&self, point: u32, letter: u8) -> Option<u32> {
        next_point(iso_date(), point, letter)
    }

    fn ends(&self, point: u32) -> bool {
        is_last(iso_date(), point)
    }
}
