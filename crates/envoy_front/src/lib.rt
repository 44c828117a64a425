//! Formats as Envoy's access log spells them.
#![tactic(auto)]

mod command;
mod front;
mod length;
mod table;

pub use front::{one_answer, parse};
