//! Machines of six points, by their moves.
ghost use Rattle.std.specs.Prelude.{◌≡◌, ◌+◌, ◌*◌, ◌<◌, OnOk};
ghost use Rattle.lf_witness.specs.Sets.{has_point};
ghost use Rattle.lf_small_machines.specs.Small.{move_of, push_if, moves_below};

use lf_core::{Marked, Move, OutOfMemory};
use smallvec::SmallVec;
use std::alloc::Global;

/// How many points there are.
pub(crate) const POINTS: u8 = 6;

/// How many moves there are: two marks, and six points to lead to.
const MOVES: u8 = 12;

/// The bytes of the moves of random machines.
pub(crate) const LETTERS: [u8; 3] = [0, b'a', 200];

/// A move from a point on a byte, by its number.
#[derive(Clone, Copy)]
pub(crate) struct Arc {
    pub(crate) from: u8,
    pub(crate) byte: u8,
    pub(crate) number: u8,
}

impl Arc {
    pub(crate) fn to(self) -> u8 {
        self.number % POINTS
    }
}

/// A machine of six points. `flags` says of each point, byte and move whether `arcs` has it.
#[derive(Drop)]
pub(crate) struct SmallMachine {
    pub(crate) start: u8,
    pub(crate) arcs: Vec<Arc>,
    flags: Vec<bool>,
    ends: Vec<bool>,
    ghost begins: { start < 6 },
}

/// Whether the place is in the set.
pub(crate) fn has(set: &[bool], at: usize) -> bool
    ensures { result ≡ has_point set.now at }
{
    set.get(at).copied().unwrap_or(false)
}

/// Puts the place into the set, if it has room for it.
pub(crate) fn put(set: &mut [bool], at: usize) {
    if at < set.len() {
        set[at] = true;
    }
}

/// The move with this number.
pub(crate) fn move_of(number: u32) -> Move
    ensures { result ≡ move_of number }
{
    Move {
        mark: number / 6,
        to: number % 6,
    }
}

/// Appends the move, if told so.
fn push_if(flag: bool, number: u32, into: &mut SmallVec<Move, 4, Global>) -> Result<(), OutOfMemory>
    ensures { OnOk result (into.new.items ≡ push_if flag number into.old.items) }
{
    if flag {
        into.push(move_of(number))?;
    }
    Ok(())
}

/// Lists the moves from the point on the byte.
fn list_moves(
    flags: &[bool],
    point: u32,
    byte: u8,
    into: &mut SmallVec<Move, 4, Global>,
) -> Result<(), OutOfMemory>
    ensures { OnOk result (into.new.items ≡ moves_below flags.now ((point * 256 + byte) * 12) 12) }
{
    let at = (point as usize * 256 + byte as usize) * 12;
    into.clear();
    for number in 0..12u32 {
        push_if(has(flags, at + number as usize), number, into)?;
    }
    Ok(())
}

impl SmallMachine {
    pub(crate) fn new(alloc: Global, start: u8) -> Result<SmallMachine, OutOfMemory>
        requires { start < 6 }
    {
        Ok(SmallMachine {
            start,
            arcs: Vec::new(alloc),
            flags: vec![in alloc; false; 6 * 256 * 12]?,
            ends: vec![in alloc; false; 6]?,
        })
    }

    pub(crate) fn add(&mut self, from: u8, byte: u8, number: u8) -> Result<(), OutOfMemory> {
        self.arcs.push(Arc { from, byte, number })?;
        let at = (from as usize * 256 + byte as usize) * 12 + number as usize;
        put(&mut self.flags, at);
        Ok(())
    }

    pub(crate) fn end_at(&mut self, point: u8) {
        put(&mut self.ends, point as usize);
    }

    pub(crate) fn is_end(&self, point: u8) -> bool {
        has(&self.ends, point as usize)
    }
}

impl Marked for SmallMachine {
    ghost use Rattle.lf_small_machines.specs.Small.{small_machine};
    ghost use Rattle.lf_small_machines.specs.SmallLaws.{small_lawful};

    ghost machine = { λ m. small_machine m.start m.flags.items m.ends.items };

    fn points(&self) -> u32 {
        6
    }

    fn start(&self) -> u32 {
        self.start as u32
    }

    fn moves(
        &self,
        point: u32,
        byte: u8,
        into: &mut SmallVec<Move, 4, Global>,
    ) -> Result<(), OutOfMemory> {
        let Ok(()) = list_moves(&self.flags, point, byte, into) else {
            into.clear();
            return Err(OutOfMemory);
        };
        Ok(())
    }

    fn ends(&self, point: u32) -> bool {
        has(&self.ends, point as usize)
    }

    ghost laws = { λ m. small_lawful m.start m.flags.items m.ends.items m.begins };
}

/// Numbers that look random, the same in each run.
#[derive(Drop)]
pub(crate) struct Random {
    state: u64,
}

impl Random {
    pub(crate) fn new() -> Random {
        Random { state: 1 }
    }

    /// True in so many of a hundred calls.
    fn chance(&mut self, percent: u64) -> bool {
        self.state = self
            .state
            .wrapping_mul(6_364_136_223_846_793_005)
            .wrapping_add(1_442_695_040_888_963_407);
        (self.state >> 33) % 100 < percent
    }
}

/// Adds some of the moves from the point on the byte.
fn add_moves(
    m: &mut SmallMachine,
    random: &mut Random,
    percent: u64,
    from: u8,
    byte: u8,
) -> Result<(), OutOfMemory> {
    for number in 0..MOVES {
        if random.chance(percent) {
            m.add(from, byte, number)?;
        }
    }
    Ok(())
}

/// Adds some of the moves from the point, and in one of three calls makes it an end.
fn add_point(
    m: &mut SmallMachine,
    random: &mut Random,
    percent: u64,
    from: u8,
) -> Result<(), OutOfMemory> {
    for byte in LETTERS {
        add_moves(m, random, percent, from, byte)?;
    }
    if random.chance(33) {
        m.end_at(from);
    }
    Ok(())
}

/// A machine with about so many of a hundred possible moves.
pub(crate) fn random_machine(
    alloc: Global,
    random: &mut Random,
    percent: u64,
) -> Result<SmallMachine, OutOfMemory> {
    let mut m = SmallMachine::new(alloc, 0)?;
    for from in 0..POINTS {
        add_point(&mut m, random, percent, from)?;
    }
    Ok(m)
}
