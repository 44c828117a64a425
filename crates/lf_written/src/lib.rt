//! A machine over bytes, written out for reading: its moves stand in one list, found by point and byte.
#![tactic(auto)]

mod cells;
mod table;
mod written;

pub use table::Table;
pub use written::WrittenOut;
