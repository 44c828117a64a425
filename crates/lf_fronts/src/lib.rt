//! Formats as each front spells them.
#![tactic(auto)]

mod fronts;

pub use fronts::{one_answer, parse, spelled_keeps};
