//! Field maps: what the slots of one format get from a record of another.
#![tactic(auto)]

mod checking;
mod fault;
mod field_map;
mod grammar;
mod laws;
mod mapping;
mod numbers;
mod parsing;
mod parts;
mod reading;
mod strings;

pub use fault::MapFault;
pub use field_map::FieldMap;
pub use laws::{one_answer, one_mapped, some_mapped};
pub use mapping::write_mapped;
pub use parsing::parse_map;
