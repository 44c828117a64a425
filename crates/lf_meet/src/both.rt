//! Two machines side by side, as one.
ghost use Rattle.std.specs.Prelude.{◌≡◌, ◌+◌, ◌<◌, ◌≤◌, ◌^◌, All, map};
ghost use Rattle.lf_limits.specs.Limits.{most_size};
ghost use Rattle.lf_meet.specs.Both.{shifted};

use lf_core::{Marked, Move, OutOfMemory};
use smallvec::SmallVec;
use std::alloc::Global;

/// Two machines as one: the points of the right one are numbered on from those of the left one, where runs begin.
#[derive(Drop)]
pub(crate) struct Both<'a, M: Marked, N: Marked> {
    pub(crate) left: &'a M,
    pub(crate) right: &'a N,
    ghost few: { (M.machine left.now).count + (N.machine right.now).count ≤ most_size },
}

/// Lets each move lead so many points further.
fn shift(moves: &mut [Move], by: u32)
    requires { All (λ x. by + x.to < 2 ^ 32) moves.old }
    ensures { moves.new ≡ map (shifted by) moves.old }
{
    for step in moves.iter_mut() {
        step.to += by;
    }
}

impl<'a, M: Marked, N: Marked> Marked for Both<'a, M, N> {
    ghost use Rattle.lf_meet.specs.Both.{both};
    ghost use Rattle.lf_meet.specs.BothLaws.{both_lawful};

    ghost machine = { λ b. both (M.machine b.left.now) (N.machine b.right.now) };

    fn points(&self) -> u32 {
        self.left.points() + self.right.points()
    }

    fn start(&self) -> u32 {
        self.left.start()
    }

    fn moves(
        &self,
        point: u32,
        byte: u8,
        into: &mut SmallVec<Move, 4, Global>,
    ) -> Result<(), OutOfMemory> {
        let points = self.left.points();
        if point < points {
            return self.left.moves(point, byte, into);
        }
        let Ok(()) = self.right.moves(point - points, byte, into) else {
            into.clear();
            return Err(OutOfMemory);
        };
        shift(into.as_mut_slice(), points);
        Ok(())
    }

    fn ends(&self, point: u32) -> bool {
        let points = self.left.points();
        if point < points {
            return self.left.ends(point);
        }
        self.right.ends(point - points)
    }

    ghost laws = { λ b. both_lawful (M.machine b.left.now) (N.machine b.right.now) (M.laws b.left.now) (N.laws b.right.now) };
}
