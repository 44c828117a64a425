//! Formats as lists of fields: those of the W3C's draft of an extended log file, and those of IIS.
#![tactic(auto)]

mod front;
mod identifier;
mod laws;
mod table;

pub use front::{one_draft_answer, one_iis_answer, parse_draft, parse_iis};
pub use laws::no_return;
