//! How a piece's moves stand among those of the line.

ghost use Rattle.lf_machine.specs.Sums.{most_sum};
ghost use Rattle.std.specs.Prelude.{◌≡◌, ◌++◌, ◌≤◌, [], OnOk, cond, false, map};
ghost use Rattle.lf_machine.specs.Places.{IsNear, placed, aimed, one_move};

use lf_core::{Move, OutOfMemory};
use smallvec::SmallVec;
use std::alloc::Global;

/// Moves that are being listed; up to four need no allocation.
pub type Moves = SmallVec<Move, 4, Global>;

/// What the marks and the points of a piece's moves are raised by.
#[derive(Clone, Copy)]
pub struct Place {
    /// What marks are raised by.
    pub above: u32,
    /// What points are raised by.
    pub base: u32,
}

/// Where moves lead that end a letter: with `apart`, the one that ends a dash leads to the point `lone`.
#[derive(Clone, Copy)]
pub struct Aim {
    pub place: Place,
    pub apart: bool,
    pub lone: u32,
}

impl Place {
    /// Each move leads to its own point.
    pub fn aim(self) -> Aim
        ensures { result ≡ record { place = self; apart = false; lone = 0 } }
    {
        Aim {
            place: self,
            apart: false,
            lone: 0,
        }
    }

    /// Adds the move.
    pub fn put(self, mark: u32, to: u32, into: &mut Moves) -> Result<(), OutOfMemory>
        requires near { IsNear self }
        requires few { mark ≤ 259 }
        requires low { to ≤ most_sum }
        ensures ok { OnOk result (into.new.items ≡ into.old.items ++ map (placed self) (one_move mark to)) }
    {
        let step = Move {
            mark: self.above + mark,
            to: self.base + to,
        };
        into.push(step)?;
        Ok(())
    }

    /// Adds the move, where the test holds.
    pub fn put_if(self, test: bool, mark: u32, to: u32, into: &mut Moves) -> Result<(), OutOfMemory>
        requires near { IsNear self }
        requires few { mark ≤ 259 }
        requires low { to ≤ most_sum }
        ensures ok { OnOk result (into.new.items ≡ into.old.items ++ map (placed self) (cond test (one_move mark to) [])) }
    {
        if test {
            return self.put(mark, to, into);
        }
        Ok(())
    }
}

impl Aim {
    /// Adds the move.
    pub fn put(&self, mark: u32, to: u32, into: &mut Moves) -> Result<(), OutOfMemory>
        requires near { IsNear self.now.place }
        requires few { mark ≤ 259 }
        requires low { to ≤ most_sum }
        requires lone { self.now.lone ≤ most_sum }
        ensures ok { OnOk result (into.new.items ≡ into.old.items ++ map (aimed self.now) (one_move mark to)) }
    {
        let to = if self.apart && mark == 48 {
            self.lone
        } else {
            to
        };
        self.place.put(mark, to, into)
    }
}
