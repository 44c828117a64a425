//! The least list on which two machines meet.
ghost use Rattle.std.specs.Prelude.{◌+◌, ◌<◌, ◌≤◌, IfOk, MatchOption};
ghost use Rattle.lf_core.specs.Written.{machine_of};
ghost use Rattle.lf_limits.specs.Limits.{most_size};
ghost use Rattle.lf_meet.specs.Meet.{IsLeastMet, AreApart, IsLeastShare};

use crate::both::Both;
use lf_core::{Bytes, Marked, OutOfMemory};
use lf_product::{Pair, Pairs, distances, least_word};
use std::alloc::Global;

/// The least word that runs from the two points share, if they share one. The value is set from the start on,
/// so that no difference of the runs is asked for.
fn shared_word(alloc: Global, pairs: &Pairs, from: Pair) -> Result<Option<Bytes>, OutOfMemory>
    requires left { from.left < (machine_of pairs.now).count }
    requires right { from.right < (machine_of pairs.now).count }
    ensures { IfOk result (λ found. IsLeastShare (machine_of pairs.now) from found) }
{
    let Some(distance) = pairs.distance(from.left, from.right, from.differed) else {
        return Ok(None);
    };
    let mut level = Vec::new(alloc);
    level.push(from)?;
    let word = least_word(alloc, pairs, level, distance)?;
    Ok(Some(word))
}

/// The least list of bytes on which both machines have a whole run; None exactly where there is none.
/// A pair of points, one of each machine, is a pair of the two as one machine: time and memory are those of its distances.
pub fn meet<M: Marked, N: Marked>(alloc: Global, m: &M, n: &N) -> Result<Option<Bytes>, OutOfMemory>
    requires { (M.machine m.now).count + (N.machine n.now).count ≤ most_size }
    ensures { IfOk result (λ found. MatchOption found (AreApart (M.machine m.now) (N.machine n.now))
        (λ line. IsLeastMet (M.machine m.now) (N.machine n.now) line)) }
{
    let both = Both { left: m, right: n };
    let pairs = distances(alloc, &both)?;
    let starts = Pair {
        left: m.start(),
        right: m.points() + n.start(),
        differed: true,
    };
    shared_word(alloc, &pairs, starts)
}
