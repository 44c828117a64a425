//! Sets of points, numbered as they are found.
ghost use Rattle.std.specs.Prelude.{◌≡◌, [], map, OnOk, IfOk, MatchOption};
ghost use Rattle.lf_tables.specs.Found.{AreNumbered, HasNumber, HasNoRoom};

use lf_core::OutOfMemory;
use lf_limits::MOST_SETS;
use std::alloc::Global;
use std::collections::BTreeMap;

/// Sets of points by number, each in rising order, and the number of each.
#[derive(Drop)]
pub(crate) struct Sets {
    pub(crate) lists: Vec<Vec<u32>>,
    numbers: BTreeMap<Vec<u32>, u16>,
}

/// The same points once more.
fn copy_of(alloc: Global, points: &[u32]) -> Result<Vec<u32>, OutOfMemory>
    ensures { IfOk result (λ copy. copy.items ≡ points.now) }
{
    let mut copy = Vec::with_capacity(alloc, points.len())?;
    copy.extend_from_slice(points)?;
    Ok(copy)
}

impl Sets {
    /// No sets.
    pub(crate) fn new(alloc: Global) -> Sets
        ensures none { result.lists.items ≡ [] }
        ensures numbered { AreNumbered (λ v. v.items) result.numbers (map (λ v. v.items) result.lists.items) }
    {
        Sets {
            lists: Vec::new(alloc),
            numbers: BTreeMap::new(alloc),
        }
    }

    /// The number of the set, which may be a new one; none where there are as many as there may be without it.
    pub(crate) fn number_of(
        &mut self,
        alloc: Global,
        points: Vec<u32>,
    ) -> Result<Option<u16>, OutOfMemory>
        requires { AreNumbered (λ v. v.items) self.old.numbers (map (λ v. v.items) self.old.lists.items) }
        ensures numbered { OnOk result (AreNumbered (λ v. v.items) self.new.numbers (map (λ v. v.items) self.new.lists.items)) }
        ensures number { IfOk result (λ number. MatchOption number
            (HasNoRoom points.items (map (λ v. v.items) self.old.lists.items))
            (λ n. HasNumber points.items n (map (λ v. v.items) self.old.lists.items) (map (λ v. v.items) self.new.lists.items))) }
    {
        if let Some(number) = self.numbers.get(&points).copied() {
            return Ok(Some(number));
        }
        let next = self.lists.len();
        if next >= MOST_SETS {
            return Ok(None);
        }
        let copy = copy_of(alloc, &points)?;
        self.lists.push(copy)?;
        self.numbers.insert(points, next as u16)?;
        Ok(Some(next as u16))
    }
}
