//! Runs of a marked machine, found by sets of points.
#![tactic(auto)]

mod backward;
mod blocks;
mod forest;
mod forward;
mod reader;

pub use reader::SetReader;
