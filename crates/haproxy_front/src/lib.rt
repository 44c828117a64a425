//! Formats as HAProxy's log-format spells them.
#![tactic(auto)]

mod flags;
mod front;
mod item;
mod slots;
mod table;

pub use front::{one_answer, parse};
