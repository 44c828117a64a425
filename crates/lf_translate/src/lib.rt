//! The translation of a record, and of a line: a line of another format.
#![tactic(auto)]

mod translating;
mod turning;

pub use translating::Translation;
pub use turning::{Turned, translate_record};
