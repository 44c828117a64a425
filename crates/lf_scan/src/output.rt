//! The end of the array that is added.
ghost use Rattle.std.specs.Prelude.{◌≡◌, ◌++◌, [], ◌∷◌, cond, ◌==◌, OnOk};
ghost use Rattle.lf_core.specs.Adds.{BeginsWith};

use lf_core::{Bytes, OutOfMemory};

/// Appends the end of the array, and its begin where no value stood before.
pub(crate) fn push_end(before: u8, into: &mut Bytes) -> Result<(), OutOfMemory>
    ensures ok { OnOk result (into.new ≡ into.old ++ cond (before == 91) (91 ∷ 93 ∷ []) (93 ∷ [])) }
    ensures kept { BeginsWith into.new into.old }
{
    if before == b'[' {
        into.extend(b"[]")?;
        return Ok(());
    }
    into.push(b']')?;
    Ok(())
}
