//! Over a line through the sets, and back along one run.
ghost use Rattle.std.specs.Prelude.{◌≡◌, ℕ, ◌+◌, ◌*◌, ◌<◌, length, map, take, reverse, slice_index, true, OnOk, IfOk};
ghost use Rattle.lf_core.specs.Marked.{IsWholeRun};
ghost use Rattle.lf_core.specs.Written.{machine_of};
ghost use Rattle.lf_tables.specs.Tabled.{cells_of, set_at, set_after, IsTabled};

use crate::ways::Back;
use lf_core::{Move, OutOfMemory};
use lf_written::Table;
use std::snapshot::Snapshot;

/// The cells of all sets and classes of bytes, and the ways back. The machine and the sets stand in it for clauses alone.
#[derive(Drop)]
pub(crate) struct Grid {
    pub(crate) machine: Snapshot<Table>,
    pub(crate) sets: Snapshot<Vec<Vec<u32>>>,
    pub(crate) class_of: Vec<u8>,
    pub(crate) classes: usize,
    /// By set and class, the next set.
    pub(crate) nexts: Vec<u16>,
    /// By set and class, where the ways back from the next set's points begin.
    pub(crate) starts: Vec<usize>,
    pub(crate) backs: Vec<Back>,
    /// By set, the place of an end.
    pub(crate) ends: Vec<Option<usize>>,
    ghost even: { length nexts.items ≡ length starts.items },
    ghost tabled: { IsTabled (machine_of machine.value) (map (λ v. v.items) sets.value.items) class_of.items classes (cells_of nexts.items starts.items) backs.items ends.items },
}

impl Grid {
    /// The place of the cell of the set and the byte.
    fn place(&self, set: u16, byte: u8) -> usize
        requires { set < length self.now.sets.value.items }
        ensures is { result ≡ set * self.now.classes + slice_index self.now.class_of.items byte }
        ensures low { result < length self.now.nexts.items }
    {
        let class = self.class_of[byte as usize] as usize;
        set as usize * self.classes + class
    }

    /// Puts the number of the set before each byte into the trail, and gives the last one.
    pub(crate) fn forward(&self, line: &[u8], trail: &mut Vec<u16>) -> Result<u16, OutOfMemory>
        ensures each { OnOk result (length trail.new.items ≡ length line.now) }
        ensures trail { OnOk result ((k : ℕ) → k < length line.now → slice_index trail.new.items k ≡
            set_after self.now.class_of.items self.now.classes (cells_of self.now.nexts.items self.now.starts.items) (take k line.now)) }
        ensures last { IfOk result (λ s. s ≡ set_after self.now.class_of.items self.now.classes (cells_of self.now.nexts.items self.now.starts.items) line.now) }
    {
        trail.clear();
        let mut set = 0;
        for byte in line {
            trail.push(set)?;
            set = self.nexts[self.place(set, *byte)];
        }
        Ok(set)
    }

    /// Puts the moves that lead over the line to the point at the place into the list, the last first.
    pub(crate) fn backward(
        &self,
        line: &[u8],
        trail: &[u16],
        end: usize,
        moves: &mut Vec<Move>,
    ) -> Result<(), OutOfMemory>
        requires each { length trail.now ≡ length line.now }
        requires trail { (k : ℕ) → k < length line.now → slice_index trail.now k ≡
            set_after self.now.class_of.items self.now.classes (cells_of self.now.nexts.items self.now.starts.items) (take k line.now) }
        requires place { end < length (set_at (map (λ v. v.items) self.now.sets.value.items)
            (set_after self.now.class_of.items self.now.classes (cells_of self.now.nexts.items self.now.starts.items) line.now)) }
        requires ends { (machine_of self.now.machine.value).is_end (slice_index (set_at (map (λ v. v.items) self.now.sets.value.items)
            (set_after self.now.class_of.items self.now.classes (cells_of self.now.nexts.items self.now.starts.items) line.now)) end) ≡ true }
        ensures { OnOk result (IsWholeRun (machine_of self.now.machine.value) line.now (reverse moves.new.items)) }
    {
        moves.clear();
        let mut place = end;
        for k in 0..line.len() {
            let at = line.len() - 1 - k;
            let start = self.starts[self.place(trail[at], line[at])];
            let back = self.backs[start + place];
            moves.push(back.step)?;
            place = back.before;
        }
        Ok(())
    }
}
