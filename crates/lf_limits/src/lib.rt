//! The limits of the product, each named once as a number of the rules and once as a constant of the code.
#![tactic(auto)]

/// The constants of the code are the numbers of the rules.
pub mod laws;
mod limits;

pub use limits::{
    BUFFER_BYTES, LEAST_ROOM, MOST_JOBS, MOST_LENGTH, MOST_LINE_BYTES, MOST_LIST_BYTES,
    MOST_LITERAL_BYTES, MOST_MARKS, MOST_NESTING, MOST_RECORDS, MOST_RUN_BYTES, MOST_SETS,
    MOST_SIZE, MOST_SLOTS, MOST_TEXT_BYTES, MOST_WORD_BYTES,
};
