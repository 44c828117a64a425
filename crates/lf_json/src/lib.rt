//! Records as JSON: an array with a value for each slot, written and read.
#![tactic(auto)]

mod bad_record;
mod items;
/// Laws over the definitions: a line has one reading, and a record written is read back.
pub mod laws;
mod letters;
mod reading;
mod times;
mod writing;

pub use bad_record::BadRecord;
pub use reading::read_record;
pub use writing::{write_record, write_text};
