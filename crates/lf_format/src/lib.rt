//! Formats: their pieces, what their slots hold and print, and the line of a record.
#![tactic(auto)]

mod absence;
mod format;
mod kind;
mod size;
mod slot;
mod some;
mod two;
mod writing;

pub use format::{Format, LineEnd, Piece};
pub use kind::{Kind, ValueKind};
pub use lf_escape::Coding;
pub use slot::{Absent, Slot};
pub use two::{two_holds_the_dash, two_keeps};
