//! The domain of times as Apache and nginx write them.

ghost use Rattle.std.specs.Prelude.{◌≡◌};
ghost use Rattle.lf_layout.specs.Layouts.{HoldsMoment, moment_text};
ghost use Rattle.lf_time.specs.TimeLayouts.{clf_layout};
ghost use Rattle.lf_layout.specs.Places.{layout_places, places_machine};

use crate::tables::clf;
use lf_core::{Bytes, Domain, OutOfMemory, Value};
use lf_layout::{
    DateForm, Layout, Zone, holds_moment, is_last, next_point, point_count, read_moment,
    write_moment,
};
use std::alloc::Global;

/// Moments without milliseconds, like `10/Oct/2000:13:55:36 -0700`, in brackets or not.
#[derive(Clone, Copy, Debug, PartialEq, Eq)]
pub struct ClfTime {
    pub bracketed: bool,
}

impl ClfTime {
    fn layout(self) -> Layout
        ensures { result ≡ clf_layout self.bracketed }
    {
        Layout {
            bracketed: self.bracketed,
            date: DateForm::Named,
            between: b':',
            millis: false,
            zone: Zone::Compact,
        }
    }
}

impl Domain for ClfTime {
    ghost use Rattle.lf_layout.specs.DomainLaws.{moment_laws};
    ghost use Rattle.lf_time.specs.TimeLaws.{clf_placed};

    ghost holds = { λ d. HoldsMoment (clf_layout d.bracketed) };

    ghost plain = { λ d. moment_text (clf_layout d.bracketed) };

    ghost machine = { λ d. places_machine (layout_places (clf_layout d.bracketed)) };

    ghost size = { λ _. 300 };

    ghost laws = { λ d. moment_laws (clf_layout d.bracketed) (clf_placed d.bracketed) };

    fn check(&self, value: &Value) -> bool {
        holds_moment(self.layout(), value)
    }

    fn write_plain(&self, value: &Value, into: &mut Bytes) -> Result<(), OutOfMemory> {
        write_moment(self.layout(), value, into)
    }

    fn read_plain(&self, _alloc: Global, text: &[u8]) -> Result<Option<Value>, OutOfMemory> {
        Ok(read_moment(self.layout(), clf(self.bracketed), text))
    }

    fn points(&self) -> u32 {
        point_count(clf(self.bracketed))
    }

    fn start(&self) -> u32 {
        0
    }

    fn step(&self, point: u32, letter: u8) -> Option<u32> {
        next_point(clf(self.bracketed), point, letter)
    }

    fn ends(&self, point: u32) -> bool {
        is_last(clf(self.bracketed), point)
    }
}
