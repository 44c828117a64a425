//! Distances of pairs of points, whether two different whole runs stand on one byte list, and the least word of a level of pairs.
#![tactic(auto)]

mod arrivals;
mod byte_set;
/// A law over the definitions: a machine is ambiguous or not.
pub mod laws;
mod pages;
mod pair;
mod pairs;
mod search;
mod walk;

pub use pair::Pair;
pub use pairs::{Pairs, distances};
pub use walk::{least_word, next_on};
