//! The top call: a command line, run over a source and two sinks.
#![tactic(auto)]

mod commands;
mod flush;
mod gate;
/// Laws over the definitions: words are one command, and a command has one outcome.
pub mod laws;
mod passes;
mod reading;
mod report;
mod running;
mod showing;
mod sides;
mod status;
mod telling;
mod verdict;

pub use gate::{Gate, IdleGate};
pub use running::run;
pub use status::Status;
