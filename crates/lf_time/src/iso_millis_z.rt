//! The domain of times as Envoy writes them.

ghost use Rattle.std.specs.Prelude.{◌≡◌};
ghost use Rattle.lf_layout.specs.Layouts.{HoldsMoment, moment_text};
ghost use Rattle.lf_time.specs.TimeLayouts.{iso_millis_layout};
ghost use Rattle.lf_layout.specs.Places.{layout_places, places_machine};

use crate::tables::iso_millis;
use lf_core::{Bytes, Domain, OutOfMemory, Value};
use lf_layout::{
    DateForm, Layout, Zone, holds_moment, is_last, next_point, point_count, read_moment,
    write_moment,
};
use std::alloc::Global;

/// Moments with the offset 0, like `2016-04-15T20:17:00.310Z`.
#[derive(Clone, Copy, Debug, PartialEq, Eq)]
pub struct IsoMillisZ;

impl IsoMillisZ {
    fn layout(self) -> Layout
        ensures { result ≡ iso_millis_layout }
    {
        Layout {
            bracketed: false,
            date: DateForm::Iso,
            between: b'T',
            millis: true,
            zone: Zone::Zulu,
        }
    }
}

impl Domain for IsoMillisZ {
    ghost use Rattle.lf_layout.specs.DomainLaws.{moment_laws};
    ghost use Rattle.lf_time.specs.TimeLaws.{iso_millis_placed};

    ghost holds = { λ _. HoldsMoment iso_millis_layout };

    ghost plain = { λ _. moment_text iso_millis_layout };

    ghost machine = { λ _. places_machine (layout_places iso_millis_layout) };

    ghost size = { λ _. 300 };

    ghost laws = { λ _. moment_laws iso_millis_layout iso_millis_placed };

    fn check(&self, value: &Value) -> bool {
        holds_moment(self.layout(), value)
    }

    fn write_plain(&self, value: &Value, into: &mut Bytes) -> Result<(), OutOfMemory> {
        write_moment(self.layout(), value, into)
    }

    fn read_plain(&self, _alloc: Global, text: &[u8]) -> Result<Option<Value>, OutOfMemory> {
        Ok(read_moment(self.layout(), iso_millis(), text))
    }

    fn points(&self) -> u32 {
        point_count(iso_millis())
    }

    fn start(&self) -> u32 {
        0
    }

    fn step(&self, point: u32, letter: u8) -> Option<u32> {
        next_point(iso_millis(), point, letter)
    }

    fn ends(&self, point: u32) -> bool {
        is_last(iso_millis(), point)
    }
}
