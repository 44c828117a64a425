//! Reading by tables: the sets of points that byte lists reach, and where each byte leads from each set.
#![tactic(auto)]

mod classes;
mod grid;
mod movers;
mod search;
mod sets;
mod tables;
mod ways;

pub use tables::Tables;
