//! A batch of lines, shared among jobs.
#![tactic(auto)]

mod gate;
mod reading;
mod sharing;
mod verdict;
mod work;

pub use gate::{Gate, IdleGate};
pub use reading::read_batch;
pub use sharing::share;
pub use verdict::{Found, Verdict};
pub use work::Work;
