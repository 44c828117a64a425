//! Formats as nginx's log_format spells them.
#![tactic(auto)]

mod bytes;
mod directive;
mod front;
mod grammar;
mod parts;
mod strings;
mod table;
mod variable;

pub use directive::{one_directive_answer, parse_directive};
pub use front::{one_answer, parse};
pub use table::Escape;
