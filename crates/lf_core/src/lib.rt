//! Values, records, classes and byte lists as plain data, and the traits of domains and marked machines.
#![tactic(auto)]

mod bytes;
mod class;
mod domain;
mod laws;
mod marked;
mod memory;
mod records;
mod runs;
mod texts;
mod values;

pub use bytes::Bytes;
pub use class::Class;
pub use domain::Domain;
pub use laws::classes;
pub use marked::{Marked, Move};
pub use memory::OutOfMemory;
pub use records::Record;
pub use runs::Run;
pub use texts::Str;
pub use values::{Moment, Value};
