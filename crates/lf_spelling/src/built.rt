//! Pieces as they are put together from the left.

ghost use Rattle.std.specs.Prelude.{◌≡◌, ◌+◌, ◌<◌, ◌^◌, List, [], OnOk, IfOk};
ghost use Rattle.lf_spelling.specs.declared.item_reader.Given.{Given};
ghost use Rattle.lf_spelling.specs.Pieces.{pieces_of};
ghost use Rattle.lf_spelling.specs.Building.{IsBuilt, Builds, IsClosed};

use crate::item_reader::Given;
use lf_core::{Bytes, OutOfMemory};
use lf_format::{Piece, Slot};
use std::alloc::Global;
use std::mem::replace;

/// Whole pieces, the literal that still grows, and the number of slots so far.
#[derive(Drop)]
pub(crate) struct Built {
    pub(crate) done: Vec<Piece>,
    pub(crate) grown: Bytes,
    pub(crate) slots: u32,
}

impl Built {
    pub(crate) fn new(alloc: Global) -> Built
        ensures { IsBuilt [] result }
    {
        Built {
            done: Vec::new(alloc),
            grown: Bytes::new(alloc),
            slots: 0,
        }
    }

    /// Closes the literal that grows, if there is one.
    fn close(&mut self, alloc: Global) -> Result<(), OutOfMemory>
        ensures { OnOk result (IsClosed self.old self.new) }
    {
        if self.grown.as_slice().is_empty() {
            return Ok(());
        }
        let literal = replace(&mut self.grown, Bytes::new(alloc));
        self.done.push(Piece::Literal(literal))?;
        Ok(())
    }

    fn add_byte(&mut self, byte: u8) -> Result<(), OutOfMemory>
        ensures built { OnOk result (Builds (Given.Byte byte) self.old self.new) }
        ensures slots { self.new.slots ≡ self.old.slots }
    {
        self.grown.push(byte)?;
        Ok(())
    }

    fn add_slot(&mut self, alloc: Global, slot: Slot) -> Result<(), OutOfMemory>
        requires { self.old.slots + 1 < 2 ^ 32 }
        ensures { OnOk result (Builds (Given.Slot slot) self.old self.new) }
    {
        self.close(alloc)?;
        self.done.push(Piece::Slot(slot))?;
        self.slots += 1;
        Ok(())
    }

    /// Adds what an item gives.
    pub(crate) fn add(&mut self, alloc: Global, given: Given) -> Result<(), OutOfMemory>
        requires { self.old.slots + 1 < 2 ^ 32 }
        ensures { OnOk result (Builds given self.old self.new) }
    {
        match given {
            Given::Nothing => Ok(()),
            Given::Byte(byte) => {
                self.add_byte(byte)?;
                Ok(())
            }
            Given::Slot(slot) => {
                self.add_slot(alloc, slot)?;
                Ok(())
            }
            Given::Spaced(slot) => {
                self.add_byte(b' ')?;
                self.add_slot(alloc, slot)?;
                Ok(())
            }
            Given::Braced(slot) => {
                self.add_byte(b'{')?;
                self.add_slot(alloc, slot)?;
                self.add_byte(b'}')?;
                Ok(())
            }
        }
    }

    /// All the pieces.
    pub(crate) fn finish(self, alloc: Global) -> Result<Vec<Piece>, OutOfMemory>
        ensures { IfOk result (λ pieces. (given : List Given) → IsBuilt given self → pieces.items ≡ pieces_of given) }
    {
        let mut all = self;
        all.close(alloc)?;
        let Built {
            done,
            grown: _,
            slots: _,
        } = all;
        Ok(done)
    }
}
