//! Lines read by guess and check: where each slot's text ends is guessed, and what was read is checked.
#![tactic(auto)]

mod absence;
mod exact_step;
mod literals;
mod numbers;
mod output;
mod plan;
mod scanning;
mod slot_step;
mod step;
mod text_step;
mod texts;
mod time_step;
mod value_step;

pub use plan::Plan;
pub use scanning::scan;
