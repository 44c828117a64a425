//! Dates, times and offsets as texts of fixed places: the calendar, the layouts, and the machine that
//! reads them.
#![tactic(auto)]

mod calendar;
mod laws;
mod layout;
mod machine;
mod names;
mod place;
mod readings;
mod text;
mod writing;

pub use calendar::is_day;
pub use laws::{days_are_dates, days_are_those_of_jiff};
pub use layout::{DateForm, Layout, Zone, holds_moment, is_moment};
pub use machine::{is_last, next_point, point_count};
pub use place::{Number, Place};
pub use readings::{read_clock, read_day, read_moment};
pub use writing::{write_clock, write_day, write_moment};
