//! The domain of times as nginx writes them by ISO 8601.

ghost use Rattle.std.specs.Prelude.{◌≡◌};
ghost use Rattle.lf_layout.specs.Layouts.{HoldsMoment, moment_text};
ghost use Rattle.lf_time.specs.TimeLayouts.{iso_offset_layout};
ghost use Rattle.lf_layout.specs.Places.{layout_places, places_machine};

use crate::tables::iso_offset;
use lf_core::{Bytes, Domain, OutOfMemory, Value};
use lf_layout::{
    DateForm, Layout, Zone, holds_moment, is_last, next_point, point_count, read_moment,
    write_moment,
};
use std::alloc::Global;

/// Moments without milliseconds, like `2000-10-10T13:55:36-07:00`.
#[derive(Clone, Copy, Debug, PartialEq, Eq)]
pub struct IsoOffset;

impl IsoOffset {
    fn layout(self) -> Layout
        ensures { result ≡ iso_offset_layout }
    {
        Layout {
            bracketed: false,
            date: DateForm::Iso,
            between: b'T',
            millis: false,
            zone: Zone::Colon,
        }
    }
}

impl Domain for IsoOffset {
    ghost use Rattle.lf_layout.specs.DomainLaws.{moment_laws};
    ghost use Rattle.lf_time.specs.TimeLaws.{iso_offset_placed};

    ghost holds = { λ _. HoldsMoment iso_offset_layout };

    ghost plain = { λ _. moment_text iso_offset_layout };

    ghost machine = { λ _. places_machine (layout_places iso_offset_layout) };

    ghost size = { λ _. 300 };

    ghost laws = { λ _. moment_laws iso_offset_layout iso_offset_placed };

    fn check(&self, value: &Value) -> bool {
        holds_moment(self.layout(), value)
    }

    fn write_plain(&self, value: &Value, into: &mut Bytes) -> Result<(), OutOfMemory> {
        write_moment(self.layout(), value, into)
    }

    fn read_plain(&self, _alloc: Global, text: &[u8]) -> Result<Option<Value>, OutOfMemory> {
        Ok(read_moment(self.layout(), iso_offset(), text))
    }

    fn points(&self) -> u32 {
        point_count(iso_offset())
    }

    fn start(&self) -> u32 {
        0
    }

    fn step(&self, point: u32, letter: u8) -> Option<u32> {
        next_point(iso_offset(), point, letter)
    }

    fn ends(&self, point: u32) -> bool {
        is_last(iso_offset(), point)
    }
}
