//! How the words of a code are read byte by byte: their proper prefixes, and the letters whose words a byte ends.
#![tactic(auto)]

mod code_table;
mod endings;
mod lone;
mod prefixes;

pub use code_table::{CodeTable, is_word};
