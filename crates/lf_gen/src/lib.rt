//! Records drawn from a seed, and the least value of a slot.
#![tactic(auto)]

mod candidate;
mod draws;
mod enough;
mod key;
/// Laws over the definitions: each state draws one record.
pub mod laws;
mod least;
mod letters;
mod record;

pub use least::least_value;
pub use record::next_record;
