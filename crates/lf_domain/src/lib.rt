//! The domains of values that slots of a format hold: texts here, and whole numbers from `lf_number`.
#![tactic(auto)]

mod plain_text;
mod query_text;
mod text_set;
mod word_list;
mod words;

pub use lf_number::{DashZero, Fixed3, NumRange, Padded, Radix};
pub use query_text::QueryText;
pub use text_set::TextSet;
pub use word_list::WordList;
pub use words::Words;
