//! The domain of times as HAProxy writes them.

ghost use Rattle.std.specs.Prelude.{◌≡◌};
ghost use Rattle.lf_layout.specs.Layouts.{HoldsMoment, moment_text};
ghost use Rattle.lf_time.specs.TimeLayouts.{ha_layout};
ghost use Rattle.lf_layout.specs.Places.{layout_places, places_machine};

use crate::tables::ha;
use lf_core::{Bytes, Domain, OutOfMemory, Value};
use lf_layout::{
    DateForm, Layout, Zone, holds_moment, is_last, next_point, point_count, read_moment,
    write_moment,
};
use std::alloc::Global;

/// Moments of a clock of unknown offset, which have the offset 0, like `06/Feb/2009:12:14:14.655`.
#[derive(Clone, Copy, Debug, PartialEq, Eq)]
pub struct HaTime;

impl HaTime {
    fn layout(self) -> Layout
        ensures { result ≡ ha_layout }
    {
        Layout {
            bracketed: false,
            date: DateForm::Named,
            between: b':',
            millis: true,
            zone: Zone::Absent,
        }
    }
}

impl Domain for HaTime {
    ghost use Rattle.lf_layout.specs.DomainLaws.{moment_laws};
    ghost use Rattle.lf_time.specs.TimeLaws.{ha_placed};

    ghost holds = { λ _. HoldsMoment ha_layout };

    ghost plain = { λ _. moment_text ha_layout };

    ghost machine = { λ _. places_machine (layout_places ha_layout) };

    ghost size = { λ _. 300 };

    ghost laws = { λ _. moment_laws ha_layout ha_placed };

    fn check(&self, value: &Value) -> bool {
        holds_moment(self.layout(), value)
    }

    fn write_plain(&self, value: &Value, into: &mut Bytes) -> Result<(), OutOfMemory> {
        write_moment(self.layout(), value, into)
    }

    fn read_plain(&self, _alloc: Global, text: &[u8]) -> Result<Option<Value>, OutOfMemory> {
        Ok(read_moment(self.layout(), ha(), text))
    }

    fn points(&self) -> u32 {
        point_count(ha())
    }

    fn start(&self) -> u32 {
        0
    }

    fn step(&self, point: u32, letter: u8) -> Option<u32> {
        next_point(ha(), point, letter)
    }

    fn ends(&self, point: u32) -> bool {
        is_last(ha(), point)
    }
}
