//! Numbers of the domains of slots, read by their digits and written as JSON.
#![tactic(auto)]

mod digits;
mod numbers;

pub use numbers::{read_dash_zero, read_fixed3, read_number, read_padded};
