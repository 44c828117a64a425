//! What is found of a small machine.
ghost use Rattle.std.specs.Prelude.{◌≡◌, IfOk};
ghost use Rattle.lf_core.specs.Written.{machine_of};

use crate::small_machines::SmallMachine;
use lf_core::OutOfMemory;
use lf_product::{Pairs, distances};
use lf_tables::Tables;
use lf_witness::{Witness, least};
use std::alloc::Global;

/// The pairs of the small machine.
pub(crate) fn pairs_of(alloc: Global, m: &SmallMachine) -> Result<Pairs, OutOfMemory>
    ensures { IfOk result (λ pairs. (machine_of pairs).count ≡ 6) }
{
    distances(alloc, m)
}

/// The least witness of the small machine, where there is one.
pub(crate) fn witness_of(alloc: Global, m: &SmallMachine) -> Result<Option<Witness>, OutOfMemory> {
    let pairs = distances(alloc, m)?;
    if !pairs.ambiguous() {
        return Ok(None);
    }
    Ok(Some(least(alloc, &pairs)?))
}

/// The tables of the small machine.
pub(crate) fn tables_of(alloc: Global, m: &SmallMachine) -> Result<Option<Tables>, OutOfMemory> {
    let pairs = distances(alloc, m)?;
    pairs.is_machine();
    Tables::build(alloc, pairs.table())
}
