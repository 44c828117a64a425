//! The least list of bytes on which two machines both have a whole run.
#![tactic(auto)]

mod both;
mod meeting;

pub use meeting::meet;
