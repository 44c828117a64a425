//! The trait of marked machines, and their moves.

ghost use Rattle.std.specs.Prelude.{◌≡◌, ◌<◌, OnOk, OnErr};
ghost use Rattle.lf_core.specs.Adds.{BeginsWith};
ghost use Rattle.lf_core.specs.Marked.{Machine, IsMachine};

use crate::memory::OutOfMemory;
use smallvec::SmallVec;
use std::alloc::Global;

/// One step of a run: what it is marked with, and the point that it leads to.
#[derive(Clone, Copy, Debug, Default, PartialEq, Eq)]
pub struct Move {
    pub mark: u32,
    pub to: u32,
}

/// A machine over bytes whose moves carry marks. Its points are the numbers below `points`.
pub trait Marked {
    /// The machine as contracts see it.
    ghost machine: { Self → Machine };

    /// How many points the machine has.
    fn points(&self) -> u32
        ensures { result ≡ (machine self.now).count };

    /// The point where runs begin.
    fn start(&self) -> u32
        ensures { result ≡ (machine self.now).first };

    /// Empties `into` and lists the moves from the point on the byte.
    fn moves(
        &self,
        point: u32,
        byte: u8,
        into: &mut SmallVec<Move, 4, Global>,
    ) -> Result<(), OutOfMemory>
        requires { point < (machine self.now).count }
        ensures ok { OnOk result (into.new.items ≡ (machine self.now).moves point byte) }
        ensures err { OnErr result (BeginsWith ((machine self.now).moves point byte) into.new.items) };

    /// Whether a whole run may stop at the point.
    fn ends(&self, point: u32) -> bool
        requires { point < (machine self.now).count }
        ensures { result ≡ (machine self.now).is_end point };

    /// What each marked machine keeps.
    ghost laws: { (m : Self) → IsMachine (machine m) };
}
