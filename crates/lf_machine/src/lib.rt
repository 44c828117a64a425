//! The marked machine of a format, whose whole runs are the format's records.
#![tactic(auto)]

mod decode;
mod machine;
mod piece_part;
mod place;
mod row;
mod slot_part;
mod spots;

pub use machine::FormatMachine;
