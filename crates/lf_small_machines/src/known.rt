//! Known answers of machines that are worked out by hand.
ghost use Rattle.std.specs.Prelude.{◌≡◌, ◌<◌};
ghost use Rattle.lf_core.specs.Marked.{Machine};
ghost use Rattle.lf_core.specs.Written.{machine_of};

use crate::answers::{pairs_of, witness_of};
use crate::forks::{fork, full_machine, staying_fork};
use crate::small_machines::{SmallMachine, move_of};
use lf_core::{Marked, Move, OutOfMemory, Run};
use lf_product::Pairs;
use lf_sets::SetReader;
use lf_witness::least_from;
use lf_written::{Table, WrittenOut};
use smallvec::SmallVec;
use std::alloc::Global;

/// Whether the moves have these numbers.
fn are_moves(moves: &[Move], numbers: &[u32]) -> bool {
    if moves.len() != numbers.len() {
        return false;
    }
    for i in 0..moves.len() {
        if moves[i] != move_of(numbers[i]) {
            return false;
        }
    }
    true
}

/// Whether the flagged pair has the distance.
fn has_distance(pairs: &Pairs, a: u32, b: u32, differed: bool, steps: Option<u32>) -> bool
    requires { (machine_of pairs.now).count ≡ 6 }
{
    if a < 6 {
        if b < 6 {
            return pairs.distance(a, b, differed) == steps;
        }
    }
    false
}

/// Whether the fork is ambiguous exactly where it has two ways, and has these distances.
fn has_distances(
    alloc: Global,
    forked: bool,
    known: &[(u32, u32, bool, Option<u32>)],
) -> Result<bool, OutOfMemory> {
    let m = fork(alloc, forked)?;
    let pairs = pairs_of(alloc, &m)?;
    for (a, b, differed, steps) in known {
        if !has_distance(&pairs, *a, *b, *differed, *steps) {
            return Ok(false);
        }
    }
    Ok(pairs.ambiguous() == forked)
}

#[test]
fn distances_are_known(rt: HostRuntime) {
    let two = [
        (0, 0, false, Some(2)),
        (0, 0, true, Some(0)),
        (0, 3, true, Some(0)),
        (3, 3, false, None),
        (1, 2, true, Some(1)),
        (1, 2, false, None),
        (0, 1, true, None),
    ];
    let one = [(0, 0, false, None), (1, 1, true, Some(1))];
    assert!(rt;
        has_distances(rt.alloc(), true, &two) == Ok(true),
        "two ways"
    );
    assert!(rt;
        has_distances(rt.alloc(), false, &one) == Ok(true),
        "one way"
    );
}

/// Whether the fork's least witness is the known one, or there is none where it has one way.
fn has_witness(alloc: Global, forked: bool) -> Result<bool, OutOfMemory> {
    let m = fork(alloc, forked)?;
    let Some(witness) = witness_of(alloc, &m)? else {
        return Ok(!forked);
    };
    Ok(
        forked
            && witness.line.as_slice() == b"ab".as_slice()
            && are_moves(witness.left.as_slice(), &[1, 3])
            && are_moves(witness.right.as_slice(), &[8, 3]),
    )
}

#[test]
fn witnesses_are_known(rt: HostRuntime) {
    assert!(rt; has_witness(rt.alloc(), true) == Ok(true), "two ways");
    assert!(rt; has_witness(rt.alloc(), false) == Ok(true), "one way");
}

/// Whether the fork's least line that begins with the byte is the known one, with its least run, or there is none.
fn begins(alloc: Global, first: u8, known: Option<(&[u8], &[u32])>) -> Result<bool, OutOfMemory> {
    let m = fork(alloc, true)?;
    let pairs = pairs_of(alloc, &m)?;
    let Some(headed) = least_from(alloc, &pairs, first)? else {
        return Ok(known.is_none());
    };
    match known {
        Some((line, numbers)) => Ok(
            headed.line.as_slice() == line && are_moves(headed.run.as_slice(), numbers),
        ),
        None => Ok(false),
    }
}

#[test]
fn lines_begin_with_a_byte(rt: HostRuntime) {
    let known = Some((b"ab".as_slice(), [1, 3].as_slice()));
    assert!(rt; begins(rt.alloc(), b'a', known) == Ok(true));
    for byte in [b'b', b'x', 0] {
        assert!(rt; begins(rt.alloc(), byte, None) == Ok(true), "{byte}");
    }
}

/// Whether the run that is found on the line has these moves, or none is found where none are given.
fn finds_run(
    alloc: Global,
    forked: bool,
    line: &str,
    known: Option<&[u32]>,
) -> Result<bool, OutOfMemory> {
    let m = staying_fork(alloc, forked)?;
    let Some(run) = SetReader::run(alloc, &m, line.as_bytes())? else {
        return Ok(known.is_none());
    };
    match known {
        Some(numbers) => Ok(are_moves(run.as_slice(), numbers)),
        None => Ok(false),
    }
}

#[test]
fn runs_are_found(rt: HostRuntime) {
    for (line, numbers) in [("", &[][..]), ("ab", &[1, 3][..])] {
        assert!(rt;
            finds_run(rt.alloc(), true, line, Some(numbers)) == Ok(true),
            "on {line}"
        );
    }
    for line in ["a", "b", "abb", "aba", "cac", "acbcb", "x", "ab\0"] {
        assert!(rt;
            finds_run(rt.alloc(), false, line, None) == Ok(true),
            "on {line}"
        );
    }
}

/// Letters `c`, with an `a` after the first of them, and a `b` after some more.
fn forked_line(
    alloc: Global,
    before: u16,
    between: u16,
    after: u16,
) -> Result<Vec<u8>, OutOfMemory> {
    let first = usize::from(before);
    let second = first + 1 + usize::from(between);
    let mut line = vec![in alloc; b'c'; second + 1 + usize::from(after)]?;
    line[first] = b'a';
    line[second] = b'b';
    Ok(line)
}

/// Whether the machine has the move from the point on the byte.
fn has_move(m: &SmallMachine, point: u32, byte: u8, step: Move) -> bool {
    for x in &m.arcs {
        if x.from as u32 == point && x.byte == byte && move_of(x.number as u32) == step {
            return true;
        }
    }
    false
}

/// Whether the run goes over the line, from the first point to the fourth.
fn goes_over(m: &SmallMachine, run: &Run, line: &[u8]) -> bool {
    if run.len() != line.len() {
        return false;
    }
    let mut point = 0;
    for i in 0..line.len() {
        let step = run.get(i);
        if !has_move(m, point, line[i], step) {
            return false;
        }
        point = step.to;
    }
    point == 3
}

/// Whether a run is found on such a line, and none where its `b` is missing.
fn is_read(alloc: Global, before: u16, between: u16, after: u16) -> Result<bool, OutOfMemory> {
    let m = staying_fork(alloc, true)?;
    let mut line = forked_line(alloc, before, between, after)?;
    let Some(run) = SetReader::run(alloc, &m, line.as_slice())? else {
        return Ok(false);
    };
    if !goes_over(&m, &run, line.as_slice()) {
        return Ok(false);
    }
    let second = usize::from(before) + 1 + usize::from(between);
    if second < line.len() {
        line[second] = b'c';
    }
    Ok(SetReader::run(alloc, &m, line.as_slice())?.is_none())
}

#[test]
fn lines_of_blocks_are_read(rt: HostRuntime) {
    for (before, between, after, what) in [
        (0, 1022, 0, "1,024 bytes, the fork first"),
        (1022, 0, 0, "1,024 bytes, the fork last"),
        (0, 1023, 0, "1,025 bytes, the fork first"),
        (1023, 0, 0, "1,025 bytes, the fork at the edge"),
        (1000, 1500, 500, "the fork over an edge"),
        (1023, 1023, 1024, "the fork at the edges"),
        (0, 0, 3000, "the fork in the first block"),
        (3000, 0, 0, "the fork in the last block"),
    ] {
        assert!(rt;
            is_read(rt.alloc(), before, between, after) == Ok(true),
            "{what}"
        );
    }
}

/// Whether both machines have the same moves, in the same order, from the point on the byte.
fn same_moves<A: Marked, B: Marked>(
    alloc: Global,
    a: &A,
    b: &B,
    point: u32,
    byte: u8,
) -> Result<bool, OutOfMemory> {
    if point >= a.points() || point >= b.points() {
        return Ok(false);
    }
    let mut left = SmallVec::new(alloc);
    let mut right = SmallVec::new(alloc);
    a.moves(point, byte, &mut left)?;
    b.moves(point, byte, &mut right)?;
    Ok(left.as_slice() == right.as_slice())
}

/// Whether both machines have the same end at the point.
fn same_end<A: Marked, B: Marked>(a: &A, b: &B, point: u32) -> bool {
    point < a.points() && point < b.points() && a.ends(point) == b.ends(point)
}

/// The full machine, written out.
fn written_out(alloc: Global) -> Result<WrittenOut<SmallMachine>, OutOfMemory> {
    let m = full_machine(alloc)?;
    let table = Table::of(alloc, &m)?;
    Ok(WrittenOut::new(m, table))
}

#[test]
fn what_is_written_out_is_the_same(rt: HostRuntime) {
    let Ok(written) = written_out(rt.alloc()) else {
        assert!(rt; false, "out of memory");
        return;
    };
    let plain = written.source();
    assert_eq!(rt; written.points(), 6);
    assert_eq!(rt; written.start(), 1);
    for point in 0..6u32 {
        assert!(rt; same_end(plain, &written, point));
        for byte in 0..256u32 {
            assert!(rt;
                same_moves(rt.alloc(), plain, &written, point, byte as u8) == Ok(true),
                "from {point} on {byte}"
            );
        }
    }
}

/// Whether the moves from the point on the byte have these numbers.
fn has_row(
    alloc: Global,
    written: &WrittenOut<SmallMachine>,
    point: u32,
    byte: u8,
    numbers: &[u32],
) -> Result<bool, OutOfMemory> {
    if point >= written.points() {
        return Ok(false);
    }
    let mut moves = SmallVec::new(alloc);
    written.moves(point, byte, &mut moves)?;
    Ok(are_moves(moves.as_slice(), numbers))
}

/// Whether the full machine's table has its points and start, the fourth point as its end, and these moves.
fn table_has(alloc: Global, point: u32, byte: u8, numbers: &[u32]) -> Result<bool, OutOfMemory> {
    let m = full_machine(alloc)?;
    let table = Table::of(alloc, &m)?;
    if table.points() != 6 || table.start() != 1 || point >= table.points() {
        return Ok(false);
    }
    Ok(table.is_end(point) == (point == 3) && are_moves(table.moves(point, byte), numbers))
}

#[test]
fn known_moves_are_found(rt: HostRuntime) {
    let Ok(written) = written_out(rt.alloc()) else {
        assert!(rt; false, "out of memory");
        return;
    };
    for (point, byte, numbers) in [
        (0, 0, &[][..]),
        (0, 96, &[][..]),
        (0, 97, &[7, 8][..]),
        (3, 97, &[7, 8][..]),
        (0, 98, &[11][..]),
        (0, 99, &[0, 11][..]),
        (1, 98, &[1, 2, 3, 4, 7, 11][..]),
        (2, 98, &[2, 3, 4, 5, 8, 11][..]),
        (3, 255, &[0, 1, 2, 4, 5, 6, 9, 11][..]),
        (5, 255, &[0, 1, 4, 5, 7, 8, 9, 11][..]),
    ] {
        assert!(rt;
            has_row(rt.alloc(), &written, point, byte, numbers) == Ok(true),
            "from {point} on {byte}"
        );
        assert!(rt;
            table_has(rt.alloc(), point, byte, numbers) == Ok(true),
            "in the table, from {point} on {byte}"
        );
    }
}

fn shared<T: Send + Sync>(_: &T) {}

#[test]
fn answers_are_shared(rt: HostRuntime) {
    shared(&SetReader);
    if let Ok(written) = written_out(rt.alloc()) {
        shared(&written);
        if let Ok(pairs) = pairs_of(rt.alloc(), written.source()) {
            shared(&pairs);
        }
    }
}
