//! Why no command was read.

ghost use Rattle.std.specs.Prelude.{◌≡◌};

use lf_core::OutOfMemory;
use thiserror::Error;

/// Why no command was read.
#[derive(Debug, Drop, Error)]
pub enum WordFault {
    /// The words are no command.
    #[error("bad command line")]
    Bad,
    /// Memory ran out, and the words may be a command or not.
    #[error("out of memory")]
    OutOfMemory,
}

impl From<OutOfMemory> for WordFault {
    ghost use Rattle.lf_words.specs.declared.faults.WordFault.{WordFault};

    ghost from_gives = { λ _ fault. fault ≡ WordFault.OutOfMemory };

    fn from(_error: OutOfMemory) -> WordFault {
        WordFault::OutOfMemory
    }
}
