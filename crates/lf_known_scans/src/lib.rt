//! Tests alone: lines that are scanned, beside the exact reader and known answers.
#![tactic(auto)]

mod beside;
#[cfg(test)]
mod drawn;
#[cfg(test)]
mod telling;
#[cfg(test)]
mod usual;

pub use beside::{Scanned, compare_scan};
