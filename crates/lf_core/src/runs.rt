//! Runs: lists of moves.

ghost use Rattle.std.specs.Prelude.{◌≡◌, ◌<◌, [], ◌∷◌, ◌++◌, length, reverse, slice_index_or, OnOk, OnErr};
ghost use Rattle.lf_core.specs.Marked.{no_move};

use crate::marked::Move;
use crate::memory::OutOfMemory;
use std::alloc::Global;
use std::marker::Model;

/// A list of moves.
#[derive(Debug, Drop)]
pub struct Run {
    moves: Vec<Move>,
}

impl Model for Run {
    ghost use Rattle.std.specs.Prelude.{List};
    ghost use Rattle.lf_core.specs.declared.marked.Move.{Move};

    ghost Value = { List Move };

    ghost view = { λ r. r.moves.items };
}

impl Run {
    /// A run of no move, which takes memory with its first one.
    pub fn new(alloc: Global) -> Run
        ensures { result ≡ [] }
    {
        Run {
            moves: Vec::new(alloc),
        }
    }

    /// The run of the moves in a list, the last of which stands first. It takes over the list's memory.
    pub fn turned(moves: Vec<Move>) -> Run
        ensures { result ≡ reverse moves.items }
    {
        let mut moves = moves;
        moves.reverse();
        Run { moves }
    }

    /// After want of memory the run is as it was.
    pub fn push(&mut self, step: Move) -> Result<(), OutOfMemory>
        ensures ok { OnOk result (self.new ≡ self.old ++ step ∷ []) }
        ensures err { OnErr result (self.new ≡ self.old) }
    {
        self.moves.push(step)?;
        Ok(())
    }

    /// How many moves the run has, one for each byte.
    pub fn len(&self) -> usize
        ensures { result ≡ length self.now }
    {
        self.moves.len()
    }

    /// The move at the place, counted from 0.
    pub fn get(&self, at: usize) -> Move
        requires { at < length self.now }
        ensures { result ≡ slice_index_or self.now at no_move }
    {
        self.moves[at]
    }

    /// The moves, in order.
    pub fn as_slice(&self) -> &[Move]
        ensures { result.now ≡ self.now }
    {
        self.moves.as_slice()
    }
}
