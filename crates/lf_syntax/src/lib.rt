//! Grammars as data, and the place where a text stops to be a beginning of a sentence.
#![tactic(auto)]

mod grammar;
mod laws;
mod leaf;
mod scan;
mod thread;

pub use grammar::Grammar;
pub use laws::{cut_at_separators, first_fault_decides, one_of_two, one_place};
pub use leaf::Leaf;
pub use scan::{ScanFault, scan_nested, scan_text};
