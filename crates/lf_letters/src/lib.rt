//! Letters read by their words under a code, and written as JSON.
#![tactic(auto)]

mod decoding;
mod letters;
mod literals;
mod marks;
mod rows;

pub use letters::Letters;
pub use literals::after_literal;
