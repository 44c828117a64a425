//! The machine of the byte lists whose byte at a place counted from the end is `a`.
ghost use Rattle.std.specs.Prelude.{◌≡◌, ◌<◌, ◌≤◌, ◌++◌, ◌∷◌, [], cond, ltb, ◌==◌, OnOk};
ghost use Rattle.lf_known_tables.specs.Nth.{step, listed};

use lf_core::{Marked, Move, OutOfMemory};
use smallvec::SmallVec;
use std::alloc::Global;

/// The machine for the place. It has one point more: the first for the bytes before the `a`, and the others for as many
/// bytes as have come since.
#[derive(Drop)]
pub(crate) struct NthFromEnd {
    pub(crate) place: u8,
    ghost some: { 1 ≤ place },
}

fn step(to: u32) -> Move
    ensures { result ≡ step to }
{
    Move { mark: 0, to }
}

/// Adds the move to the point, if told so.
fn push_if(flag: bool, to: u32, into: &mut SmallVec<Move, 4, Global>) -> Result<(), OutOfMemory>
    ensures { OnOk result (into.new.items ≡ into.old.items ++ cond flag (step to ∷ []) []) }
{
    if flag {
        into.push(step(to))?;
    }
    Ok(())
}

/// Lists the moves from the point.
fn list_moves(
    place: u8,
    point: u32,
    byte: u8,
    into: &mut SmallVec<Move, 4, Global>,
) -> Result<(), OutOfMemory>
    requires { point ≤ place }
    ensures { OnOk result (into.new.items ≡ listed (point == 0) (byte == 97) (ltb point place) point) }
{
    into.clear();
    if point == 0 {
        into.push(step(0))?;
        return push_if(byte == b'a', 1, into);
    }
    push_if(point < place as u32, point + 1, into)
}

impl Marked for NthFromEnd {
    ghost use Rattle.lf_known_tables.specs.Nth.{nth_machine};
    ghost use Rattle.lf_known_tables.specs.NthLaws.{nth_lawful};

    ghost machine = { λ m. nth_machine m.place };

    fn points(&self) -> u32 {
        self.place as u32 + 1
    }

    fn start(&self) -> u32 {
        0
    }

    fn moves(
        &self,
        point: u32,
        byte: u8,
        into: &mut SmallVec<Move, 4, Global>,
    ) -> Result<(), OutOfMemory> {
        let Ok(()) = list_moves(self.place, point, byte, into) else {
            into.clear();
            return Err(OutOfMemory);
        };
        Ok(())
    }

    fn ends(&self, point: u32) -> bool {
        point == self.place as u32
    }

    ghost laws = { λ m. nth_lawful m.place m.some };
}
