//! The lines of a stream that comes in pieces, as slices of one buffer.
#![tactic(auto)]

mod buffer;
mod cutting;
mod lines;
mod marks;

pub use cutting::line_len;
pub use lines::Lines;
pub use marks::{Batch, Body, Mark, Numbered, Sort};
