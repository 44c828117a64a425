//! Why a format has no reader.
ghost use Rattle.std.specs.Prelude.{◌≡◌};

use lf_core::{Bytes, OutOfMemory, Record};
use lf_format::Format;

/// A line that two different records print.
#[derive(Debug, Drop)]
pub struct Confusion {
    pub line: Bytes,
    /// The least record that prints the line.
    pub first: Record,
    /// The least of the other records that print it.
    pub second: Record,
}

/// Why a format has no reader.
#[derive(Debug, Drop)]
pub enum Refused {
    /// The format has this size, which is over the limit.
    TooLarge(u64),
    /// The line of this record begins with `#`, and such lines are notes.
    Hash(Record),
    /// Two different records print one line.
    Ambiguous(Confusion),
    /// Memory ran out, and the format may be readable or not.
    OutOfMemory,
}

/// A format that was given back, and why.
#[derive(Debug, Drop)]
pub struct CompileRefused {
    pub format: Format,
    pub cause: Refused,
}

impl From<OutOfMemory> for Refused {
    ghost use Rattle.lf_compile.specs.declared.refused.Refused.{Refused};

    ghost from_gives = { λ _ cause. cause ≡ Refused.OutOfMemory };

    fn from(_error: OutOfMemory) -> Refused {
        Refused::OutOfMemory
    }
}
