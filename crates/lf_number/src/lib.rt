//! The domains of whole numbers that slots of a format hold, and the machines that read their digits.
#![tactic(auto)]

mod bounds;
mod dash_zero;
mod digits;
mod fixed3;
mod mixed;
mod num_range;
mod padded;
mod reading;

pub use dash_zero::DashZero;
pub use fixed3::Fixed3;
pub use num_range::NumRange;
pub use padded::{Padded, Radix};
