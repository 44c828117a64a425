//! Times of the calendar.

ghost use Rattle.std.specs.Prelude.{◌<◌};
ghost use Rattle.lf_layout.specs.Calendar.{IsDay};
ghost use Rattle.lf_layout.specs.Layouts.{IsMoment};

use lf_core::Moment;

/// A moment of the calendar.
#[derive(Clone, Copy)]
pub(crate) struct CivilMoment {
    pub(crate) moment: Moment,
    ghost dated: { IsMoment moment },
}

/// A day of the calendar.
#[derive(Clone, Copy)]
pub(crate) struct CivilDay {
    pub(crate) day: i32,
    ghost dated: { IsDay day },
}

/// A second of a day.
#[derive(Clone, Copy)]
pub(crate) struct CivilSecond {
    pub(crate) second: u32,
    ghost dated: { second < 86400 },
}
