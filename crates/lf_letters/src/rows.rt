//! Marks as rows of bits, by which sixteen bytes are looked at in one step.
ghost use Rattle.std.specs.Prelude.{◌≡◌, ◌≢◌, ◌≤◌, ◌<◌, ◌+◌, ◌/◌, ◌%◌, ◌∷◌, [], ℕ, true, false, IsTrue, length, slice_index, slice_index_or};
ghost use Rattle.lf_letters.specs.Rows.{row_holds as holds_in_rows, first_set as lowest_set, AreWithin};

use std::simd::prelude::*;

/// How many bytes are looked at in one step.
pub(crate) const LANES: usize = 16;

/// The bit of a byte in the row of its low half, by its high half. Bytes from 128 on have none.
const HIGH_BITS: [u8; 16] = [1, 2, 4, 8, 16, 32, 64, 128, 0, 0, 0, 0, 0, 0, 0, 0];

/// Whether the byte has its bit in the rows.
fn row_holds(rows: &[u8; 16], letter: u8) -> bool
    ensures { result ≡ holds_in_rows rows.now letter }
{
    rows[usize::from(letter % 16)] & HIGH_BITS[usize::from(letter / 16)] != 0
}

/// The bits of the marked bytes.
fn rows_of(marks: &[bool; 256]) -> [u8; 16] {
    let mut rows = [0; 16];
    for letter in 0..128u8 {
        if marks[usize::from(letter)] {
            rows[usize::from(letter % 16)] |= HIGH_BITS[usize::from(letter / 16)];
        }
    }
    rows
}

/// Whether each byte that has its bit is marked.
fn are_within(rows: &[u8; 16], marks: &[bool; 256]) -> bool
    ensures { IsTrue result → AreWithin rows.now marks.now }
{
    for letter in 0..256u16 {
        if row_holds(rows, letter as u8) && !marks[usize::from(letter)] {
            return false;
        }
    }
    true
}

/// Rows of bits of marked bytes.
pub(crate) fn marked_rows(marks: &[bool; 256]) -> [u8; 16]
    ensures { AreWithin result marks.now }
{
    let rows = rows_of(marks);
    if are_within(&rows, marks) {
        return rows;
    }
    [0; 16]
}

/// Of each lane the entry at its low half.
#[inline(always)]
fn at_low(entries: [u8; 16], lanes: u8x16) -> u8x16
    ensures long { length result ≡ 16 }
    ensures entry { (k : ℕ) → k < 16 → slice_index result k ≡ slice_index entries (slice_index lanes k % 16) }
{
    u8x16::from_array(entries).swizzle_dyn_within::<16>(lanes & u8x16::splat(15))
}

/// Of each lane the entry at its high half.
#[inline(always)]
fn at_high(entries: [u8; 16], lanes: u8x16) -> u8x16
    ensures long { length result ≡ 16 }
    ensures entry { (k : ℕ) → k < 16 → slice_index result k ≡ slice_index entries (slice_index lanes k / 16) }
{
    u8x16::from_array(entries).swizzle_dyn_within::<16>(lanes >> u8x16::splat(4))
}

/// The place of the lowest bit that is set, or the number of lanes.
#[inline(always)]
fn first_set(mask: u64) -> usize
    ensures { result ≡ lowest_set mask 16 }
{
    if mask == 0 {
        LANES
    } else {
        mask.trailing_zeros() as usize
    }
}

/// How many lanes stand before the first that is zero.
#[inline(always)]
fn nonzero_run(lanes: u8x16) -> usize
    ensures within { result ≤ 16 }
    ensures nonzero { (k : ℕ) → k < result → slice_index lanes k ≢ 0 }
{
    first_set(lanes.simd_eq(u8x16::splat(0)).to_bitmask())
}

/// How many of the sixteen bytes from a place on stand before the first that has no bit in the rows.
#[inline(always)]
pub(crate) fn row_run(rows: &[u8; 16], text: &[u8], at: usize) -> usize
    requires { at + 16 ≤ length text.now }
    ensures within { result ≤ 16 }
    ensures held { (k : ℕ) → k < result → holds_in_rows rows.now (slice_index text.now (at + k)) ≡ true }
{
    let lanes = u8x16::from_slice(&text[at..]);
    nonzero_run(at_low(*rows, lanes) & at_high(HIGH_BITS, lanes))
}
