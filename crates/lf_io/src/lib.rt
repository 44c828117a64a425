//! Sources and sinks of bytes, which count their faults.
#![tactic(auto)]

mod listed;
mod memory_sink;
mod memory_source;
mod sink;
mod source;
mod sure;
mod system;

pub use memory_sink::MemSink;
pub use memory_source::MemSource;
pub use sink::{Pushed, Put, Sink, put_all};
pub use source::{Pulled, Source};
pub use sure::{SureSink, SureSource};
pub use system::{StdSink, StdSource};
