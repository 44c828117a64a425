//! The domain of all times, as records in JSON hold them.

ghost use Rattle.std.specs.Prelude.{◌≡◌};
ghost use Rattle.lf_layout.specs.Layouts.{HoldsMoment, moment_text};
ghost use Rattle.lf_time.specs.TimeLayouts.{json_layout};
ghost use Rattle.lf_layout.specs.Places.{layout_places, places_machine};

use crate::tables::json;
use lf_core::{Bytes, Domain, OutOfMemory, Value};
use lf_layout::{
    DateForm, Layout, Zone, holds_moment, is_last, next_point, point_count, read_moment,
    write_moment,
};
use std::alloc::Global;

/// All moments of the years 0001 to 9999, like `2000-10-10T13:55:36.000-07:00`.
#[derive(Clone, Copy, Debug, PartialEq, Eq)]
pub struct JsonTime;

impl JsonTime {
    fn layout(self) -> Layout
        ensures { result ≡ json_layout }
    {
        Layout {
            bracketed: false,
            date: DateForm::Iso,
            between: b'T',
            millis: true,
            zone: Zone::Colon,
        }
    }
}

impl Domain for JsonTime {
    ghost use Rattle.lf_layout.specs.DomainLaws.{moment_laws};
    ghost use Rattle.lf_time.specs.TimeLaws.{json_placed};

    ghost holds = { λ _. HoldsMoment json_layout };

    ghost plain = { λ _. moment_text json_layout };

    ghost machine = { λ _. places_machine (layout_places json_layout) };

    ghost size = { λ _. 300 };

    ghost laws = { λ _. moment_laws json_layout json_placed };

    fn check(&self, value: &Value) -> bool {
        holds_moment(self.layout(), value)
    }

    fn write_plain(&self, value: &Value, into: &mut Bytes) -> Result<(), OutOfMemory> {
        write_moment(self.layout(), value, into)
    }

    fn read_plain(&self, _alloc: Global, text: &[u8]) -> Result<Option<Value>, OutOfMemory> {
        Ok(read_moment(self.layout(), json(), text))
    }

    fn points(&self) -> u32 {
        point_count(json())
    }

    fn start(&self) -> u32 {
        0
    }

    fn step(&self, point: u32, letter: u8) -> Option<u32> {
        next_point(json(), point, letter)
    }

    fn ends(&self, point: u32) -> bool {
        is_last(json(), point)
    }
}
