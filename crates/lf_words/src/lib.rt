//! The words of a command line, and the command that they are.
#![tactic(auto)]

mod command;
mod faults;
/// Laws over the definitions: words are one command or bad, and the texts of a command are words.
pub mod laws;
mod names;
mod numbers;
mod options;
mod shapes;
mod words;

pub use command::{Command, Front, Side, Verb};
pub use faults::WordFault;
pub use words::read_words;
