//! Formats as Apache's LogFormat spells them.
#![tactic(auto)]

mod directive;
mod front;
mod table;

pub use front::{one_answer, parse};
