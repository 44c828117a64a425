//! Time stamps as the fields that they are written with, read by the fixed places of a layout.
#![tactic(auto)]

mod date;
mod digits;
mod offset;
mod recent;
mod stamp;
mod time_of_day;

pub use date::Date;
pub use offset::Offset;
pub use recent::Recent;
pub use stamp::Stamp;
pub use time_of_day::TimeOfDay;
