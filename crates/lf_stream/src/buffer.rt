//! The bytes that are held.

ghost use Rattle.std.specs.Prelude.{◌≡◌, ◌≤◌, ◌+◌, ◌-◌, ◌<◌, ◌∷◌, ◌++◌, [], MatchOption, IfOk, length, slice_range, vec_capacity};
ghost use Rattle.lf_stream.specs.Cut.{HasNoFeed};
ghost use Rattle.lf_limits.specs.Limits.{buffer_bytes, least_room};

use lf_core::OutOfMemory;
use lf_limits::{BUFFER_BYTES, LEAST_ROOM};
use memchr::memchr;
use std::alloc::Global;

/// A buffer whose bytes from `start` up to `end` are held, with no line feed before `scanned`.
/// All its memory is reserved at the start, and no more of it is touched than was filled.
#[derive(Drop)]
pub(crate) struct Buffer {
    pub(crate) bytes: Vec<u8>,
    pub(crate) start: usize,
    scanned: usize,
    pub(crate) end: usize,
    ghost filled: { length bytes.items ≡ end },
    ghost reserved: { buffer_bytes ≤ vec_capacity bytes },
    ghost from: { start ≤ scanned },
    ghost to: { scanned ≤ end },
    ghost within: { end ≤ buffer_bytes },
    ghost clean: { HasNoFeed (slice_range bytes.items start scanned) },
}

impl Buffer {
    ghost use Rattle.lf_stream.specs.Held.{held_bytes, Finds};

    pub(crate) fn new(alloc: Global) -> Result<Buffer, OutOfMemory>
        ensures { IfOk result (λ b. (b.start ≡ 0) × (b.end ≡ 0)) }
    {
        Ok(Buffer {
            bytes: Vec::with_capacity(alloc, BUFFER_BYTES)?,
            start: 0,
            scanned: 0,
            end: 0,
        })
    }

    /// Holds these bytes behind the others.
    pub(crate) fn append(&mut self, piece: &[u8])
        requires { self.old.end + length piece.now ≤ buffer_bytes }
        ensures bytes { held_bytes self.new ≡ held_bytes self.old ++ piece.now }
        ensures start { self.new.start ≡ self.old.start }
        ensures end { self.new.end ≡ self.old.end + length piece.now }
    {
        self.bytes.extend_from_slice(piece).unwrap();
        self.end += piece.len();
    }

    /// Where the first line feed stands that is held.
    pub(crate) fn find(&mut self) -> Option<usize>
        ensures found { Finds self.new result }
        ensures same { (self.new.bytes ≡ self.old.bytes) × (self.new.start ≡ self.old.start) × (self.new.end ≡ self.old.end) }
    {
        let found = memchr(b'\n', &self.bytes[self.scanned..self.end]);
        match found {
            None => {
                self.scanned = self.end;
                None
            }
            Some(ahead) => Some(self.scanned + ahead),
        }
    }

    /// Lets go of the bytes before this place.
    pub(crate) fn release(&mut self, to: usize)
        requires low { self.old.start ≤ to }
        requires high { to ≤ self.old.end }
        ensures { (self.new.bytes ≡ self.old.bytes) × (self.new.start ≡ to) × (self.new.end ≡ self.old.end) }
    {
        self.start = to;
        self.scanned = to;
    }

    /// Moves the bytes to the start where that copies no more than was let go of, or where little room
    /// is left behind them: so only as much of the buffer is touched as the lines that are held want.
    pub(crate) fn settle(&mut self)
        requires { self.old.end - self.old.start + least_room ≤ buffer_bytes }
        ensures bytes { held_bytes self.new ≡ held_bytes self.old }
        ensures room { self.new.end + least_room ≤ buffer_bytes }
        ensures shift { self.new.start + self.old.end ≡ self.old.start + self.new.end }
        ensures less { self.new.end ≤ self.old.end }
    {
        let held = self.end - self.start;
        if (held <= self.start) | (self.end > BUFFER_BYTES - LEAST_ROOM) {
            self.bytes.copy_within(self.start..self.end, 0);
            self.bytes.truncate(held);
            self.end = held;
            self.scanned = 0;
            self.start = 0;
        }
    }
}
