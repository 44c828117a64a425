//! Laws of the calendar, each the contract of a function that does nothing.

ghost use Rattle.lf_layout.specs.CalendarPromise.{IsCalendar, IsJiffCalendar};

/// Does nothing: its contract is the law that the days and the dates of the years 0001 to 9999 belong to
/// one another one by one.
#[tactic(auto, using(crate::proofs::CalendarPromises::is_calendar))]
pub fn days_are_dates()
    ensures { IsCalendar }
{}

/// Does nothing: its contract is the law that the calendar of `jiff` gives each date the same day number.
#[tactic(auto, using(crate::proofs::CalendarPromises::is_jiff_calendar))]
pub fn days_are_those_of_jiff()
    ensures { IsJiffCalendar }
{}
