//! The least line on which two different whole runs stand, with the two least runs on it, and the least line that begins with a byte.
#![tactic(auto)]

mod heads;
/// Laws over the definitions: an ambiguous machine has a least witness, and a first byte a least line or none.
pub mod laws;
mod runs;
mod second;
mod sets;
mod witness;

pub use heads::{Headed, least_from};
pub use witness::{Witness, least};
