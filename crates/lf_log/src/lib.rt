//! The log of records: the line of each with its end, and what is said of a log that is drawn from a seed.
#![tactic(auto)]

mod ends;
mod generating;

pub use ends::end_of;
pub use generating::generated_text;
