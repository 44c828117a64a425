//! Whether a format is readable, and the reader of one that is.
#![tactic(auto)]

mod accepting;
mod confusion;
mod finder;
/// Laws over the definitions: a format has one answer, and a line has a record or none.
pub mod laws;
mod meaning;
mod note;
mod reader;
mod refused;
mod sharing;

pub use accepting::compile;
pub use lf_limits::MOST_SIZE;
pub use reader::Reader;
pub use refused::{CompileRefused, Confusion, Refused};
