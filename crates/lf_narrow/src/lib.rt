//! Narrowings: what a format's slots hold, cut down by a text.
#![tactic(auto)]

mod fault;
mod grammar;
mod laws;
mod narrowing;
mod reading;
mod rules;
mod sets;
mod slots;

pub use fault::{NarrowFault, NarrowRefused};
pub use laws::{holds_what_is_allowed, narrowed_keeps, one_answer};
pub use narrowing::narrow;
