//! Why a line of JSON is no record.
ghost use Rattle.std.specs.Prelude.{◌≡◌};

use lf_core::OutOfMemory;
use thiserror::Error;

/// Why a line of JSON was read as no record.
#[derive(Debug, Drop, Error)]
pub enum BadRecord {
    /// The line isn't JSON, or no array.
    #[error("not a JSON array")]
    NotJson,
    /// The array has so many values, and the format another number of slots.
    #[error("an array of {0} values")]
    WrongCount(u64),
    /// The first slot, counted from 1, whose JSON value stands for no value that it holds.
    #[error("no value for slot {0}")]
    WrongValue(u32),
    /// Memory ran out, and the line may be a record or not.
    #[error("out of memory")]
    OutOfMemory,
}

impl From<OutOfMemory> for BadRecord {
    ghost use Rattle.lf_json.specs.declared.bad_record.BadRecord.{BadRecord};

    ghost from_gives = { λ _ bad. bad ≡ BadRecord.OutOfMemory };

    fn from(_error: OutOfMemory) -> BadRecord {
        BadRecord::OutOfMemory
    }
}
