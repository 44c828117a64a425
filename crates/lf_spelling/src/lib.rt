//! How a front reads the text of a format, an item after the other, and what all fronts share.
#![tactic(auto)]

mod built;
mod fault;
mod item_reader;
mod text;

pub use fault::{Cause, FormatFault, ItemFault};
pub use item_reader::{Given, ItemReader, Taken, one_answer, read_text};
pub use text::{Cut, cut_before, cut_part, spelled};
