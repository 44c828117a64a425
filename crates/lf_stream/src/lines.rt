//! The lines of a stream.

ghost use Rattle.std.specs.Prelude.{◌≡◌, ◌≤◌, ◌+◌, ◌-◌, ◌<◌, ℕ, min, take, List, [], ◌++◌, false, true, length, IfOk, IfNone, IfSome, IsTrue, ◌↔◌, slice_range};
ghost use Rattle.std.specs.Borrow.{sem};
ghost use Rattle.lf_stream.specs.Sorts.{least_dropped};
ghost use Rattle.lf_limits.specs.Limits.{buffer_bytes, least_room, most_line_bytes, most_marks, most_run_bytes};

use crate::buffer::Buffer;
use crate::cutting::{mark, sort};
use crate::marks::{Batch, Body, Mark, Numbered, Sort};
use lf_core::OutOfMemory;
use lf_limits::{BUFFER_BYTES, MOST_LINE_BYTES, MOST_MARKS};
use std::alloc::Global;

/// A place for a mark.
const NO_MARK: Mark = Mark {
    number: 0,
    start: 0,
    len: 0,
    sort: Sort::Line,
};

/// The lines of a stream, which is fed in pieces. `first_sort` tells the sort of the first line that is held
/// where it is known to be a note or too long, and bytes of it were dropped.
#[derive(Drop)]
pub struct Lines {
    notes: bool,
    finished: bool,
    fed: u64,
    given: u64,
    first_sort: Sort,
    buffer: Buffer,
    marks: Vec<Mark>,
    ghost room_for_marks: { length marks.items ≡ most_marks },
    ghost most: { fed ≤ most_run_bytes },
    ghost counted: { given + least_dropped first_sort + buffer.end ≤ fed + buffer.start },
}

impl Lines {
    ghost use Rattle.lf_stream.specs.Cut.{HasNoFeed, known_lines, line_of};
    ghost use Rattle.lf_stream.specs.Sorts.{Holds};
    ghost use Rattle.lf_stream.specs.Held.{held_bytes};
    ghost use Rattle.lf_stream.specs.Marks.{IsMark, IsBody, AreNextMarks, IsMarked, IsNext, IsNextMark};
    ghost use Rattle.lf_stream.specs.Standing.{has_notes, is_finished, bytes_fed, room_of, Stands, SameStream, HasTaken, MovesOn, one_if_some, settled_sort, RestsOn, RestsBatch};

    /// Reserves the memory for all further calls.
    pub fn new(alloc: Global, notes: bool) -> Result<Lines, OutOfMemory>
        ensures stands { IfOk result (λ lines. Stands lines [] 0) }
        ensures notes { IfOk result (λ lines. has_notes lines ≡ notes) }
        ensures open { IfOk result (λ lines. is_finished lines ≡ false) }
        ensures room { IfOk result (λ lines. least_room ≤ room_of lines) }
    {
        Ok(Lines {
            notes,
            finished: false,
            fed: 0,
            given: 0,
            first_sort: Sort::Line,
            buffer: Buffer::new(alloc)?,
            marks: vec![in alloc; NO_MARK; MOST_MARKS]?,
        })
    }

    /// How many bytes were fed so far.
    pub fn fed(&self) -> u64
        ensures { result ≡ bytes_fed self.now }
    {
        self.fed
    }

    /// How many bytes may be fed before the next line is taken.
    pub fn room(&self) -> usize
        ensures { result ≡ room_of self.now }
    {
        BUFFER_BYTES - self.buffer.end
    }

    /// The next bytes of the stream.
    pub fn feed(&mut self, piece: &[u8])
        requires open { is_finished self.old ≡ false }
        requires room { length piece.now ≤ room_of self.old }
        requires most { bytes_fed self.old + length piece.now ≤ most_run_bytes }
        ensures stands { (stream : List ℕ) (n : ℕ) → Stands self.old stream n → Stands self.new (stream ++ piece.now) n }
        ensures same { SameStream self.old self.new }
        ensures fed { bytes_fed self.new ≡ bytes_fed self.old + length piece.now }
        ensures room { room_of self.new + length piece.now ≡ room_of self.old }
    {
        self.buffer.append(piece);
        self.fed += piece.len() as u64;
    }

    /// The stream has ended.
    pub fn finish(&mut self)
        ensures stands { (stream : List ℕ) (n : ℕ) → Stands self.old stream n → Stands self.new stream n }
        ensures ended { is_finished self.new ≡ true }
        ensures notes { has_notes self.new ≡ has_notes self.old }
        ensures fed { bytes_fed self.new ≡ bytes_fed self.old }
        ensures room { room_of self.new ≡ room_of self.old }
    {
        self.finished = true;
    }

    /// Takes the line up to one place, and goes on at another.
    fn take_line(&mut self, to: usize, next: usize) -> Mark
        requires from { self.old.buffer.start ≤ to }
        requires order { to ≤ next }
        requires within { next ≤ self.old.buffer.end }
        requires some { self.old.buffer.start + 1 ≤ next + least_dropped self.old.first_sort }
        ensures taken { HasTaken self.old self.new next }
        ensures number { result.number ≡ self.old.given + 1 }
        ensures within { result.start + result.len ≤ self.new.buffer.end }
        ensures mark { (line : List ℕ) → Holds self.old.notes self.old.first_sort (slice_range self.old.buffer.bytes.items self.old.buffer.start to) line
            → IsMark self.old.notes self.old.buffer.bytes.items (line_of self.old.notes line) result }
    {
        let start = self.buffer.start;
        self.given += 1;
        let mark = mark(
            self.given,
            self.notes,
            self.first_sort,
            &self.buffer.bytes[start..to],
            start,
        );
        self.first_sort = Sort::Line;
        self.buffer.release(next);
        mark
    }

    /// Whether bytes are held, or were dropped from the start of what is held.
    fn has_rest(&self) -> bool
        ensures { IsTrue result ↔ (self.now.buffer.start + 1 ≤ self.now.buffer.end + least_dropped self.now.first_sort) }
    {
        match self.first_sort {
            Sort::Line => self.buffer.start < self.buffer.end,
            _ => true,
        }
    }

    /// The mark of the next line, whose bytes stay where they are.
    fn advance(&mut self) -> Option<Mark>
        ensures next { (stream : List ℕ) (n : ℕ) → Stands self.old stream n → IsNextMark self.old.notes
            self.new.buffer.bytes.items (known_lines self.old.finished self.old.notes stream) n result }
        ensures moves { MovesOn self.old self.new (one_if_some result) }
        ensures within { IfSome result (λ mark. mark.start + mark.len ≤ self.new.buffer.end) }
        ensures none { IfNone result (HasNoFeed (held_bytes self.new.buffer)) }
        ensures kept { (self.new.buffer.bytes ≡ self.old.buffer.bytes) × (self.new.marks ≡ self.old.marks) }
    {
        if let Some(at) = self.buffer.find() {
            return Some(self.take_line(at, at + 1));
        }
        if !self.finished {
            return None;
        }
        if !self.has_rest() {
            return None;
        }
        let end = self.buffer.end;
        Some(self.take_line(end, end))
    }

    /// The sort of the first line that is held, where so much of it is held or was dropped that it is settled.
    fn settled(&self) -> Sort
        ensures { result ≡ settled_sort self.now }
    {
        match self.first_sort {
            Sort::Line => {
                let bytes = &self.buffer.bytes[self.buffer.start..self.buffer.end];
                if bytes.len() > MOST_LINE_BYTES + 1 {
                    sort(self.notes, bytes)
                } else {
                    Sort::Line
                }
            }
            sort => sort,
        }
    }

    /// Drops the bytes of a line that isn't kept.
    fn drop_start(&mut self)
        requires { HasNoFeed (held_bytes self.old.buffer) }
        ensures moves { MovesOn self.old self.new 0 }
        ensures few { self.new.buffer.end ≤ self.new.buffer.start + most_line_bytes + 1 }
    {
        let front = self.settled();
        match front {
            Sort::Line => {}
            _ => {
                self.first_sort = front;
                let end = self.buffer.end;
                self.buffer.release(end);
            }
        }
    }

    /// Makes room where no whole line is held.
    fn make_room(&mut self)
        requires { HasNoFeed (held_bytes self.old.buffer) }
        ensures moves { MovesOn self.old self.new 0 }
        ensures room { least_room ≤ room_of self.new }
    {
        self.drop_start();
        self.buffer.settle();
    }

    /// What a mark tells, with the bytes.
    fn body(&self, mark: &Mark) -> Body<'_>
        requires { mark.now.start + mark.now.len ≤ self.now.buffer.end }
        ensures { (line : List ℕ) → IsMark self.now.notes self.now.buffer.bytes.items line mark.now → IsBody self.now.notes line result }
    {
        match mark.sort {
            Sort::Line => {
                let start = mark.start as usize;
                Body::Line(&self.buffer.bytes[start..start + mark.len as usize])
            }
            Sort::Note => Body::Note,
            Sort::Long => Body::Long,
        }
    }

    /// The next line, or None where no whole line is held.
    pub fn next(&mut self) -> Option<Numbered<'_>>
        ensures next { (stream : List ℕ) (n : ℕ) → Stands self.old stream n
            → IsNext (has_notes self.old) (known_lines (is_finished self.old) (has_notes self.old) stream) n result }
        ensures* after_borrow { sem 𝓛 (RestsOn self.entry result) }
    {
        let Some(mark) = self.advance() else {
            self.make_room();
            return None;
        };
        Some(Numbered {
            number: mark.number,
            body: self.body(&mark),
        })
    }

    /// Marks the next lines, as many as there are marks or lines.
    fn mark_lines(&mut self) -> usize
        ensures moves { MovesOn self.old self.new result }
        ensures none { result < most_marks → HasNoFeed (held_bytes self.new.buffer) }
        ensures few { result ≤ most_marks }
        ensures marked { (stream : List ℕ) (n : ℕ) → Stands self.old stream n → AreNextMarks self.old.notes
            self.new.buffer.bytes.items (known_lines self.old.finished self.old.notes stream) n (take result self.new.marks.items) }
        ensures all { (stream : List ℕ) (n : ℕ) → Stands self.old stream n →
            result ≡ min (length (known_lines self.old.finished self.old.notes stream) - n) most_marks }
    {
        for count in 0..MOST_MARKS {
            let Some(mark) = self.advance() else {
                return count;
            };
            self.marks[count] = mark;
        }
        MOST_MARKS
    }

    /// Marks the next lines, and makes room where there is none.
    fn take_lines(&mut self) -> usize
        ensures moves { MovesOn self.old self.new result }
        ensures few { result ≤ most_marks }
        ensures lines { (stream : List ℕ) (n : ℕ) → Stands self.old stream n → IsMarked (has_notes self.old)
            (known_lines (is_finished self.old) (has_notes self.old) stream) n self.new.buffer.bytes.items (take result self.new.marks.items) }
        ensures room { result ≡ 0 → least_room ≤ room_of self.new }
    {
        let count = self.mark_lines();
        if count == 0 {
            self.make_room();
            return 0;
        }
        count
    }

    /// The text and the first marks.
    fn marked(&self, count: usize) -> Batch<'_>
        requires { count ≤ most_marks }
        ensures { (result.text.now ≡ self.now.buffer.bytes.items) × (result.marks.now ≡ take count self.now.marks.items) }
    {
        Batch {
            text: self.buffer.bytes.as_slice(),
            marks: self.marks.split_at(count).0,
        }
    }

    /// The next lines, as many as are held whole, but at most `MOST_MARKS`.
    pub fn batch(&mut self) -> Batch<'_>
        ensures lines { (stream : List ℕ) (n : ℕ) → Stands self.old stream n → IsMarked (has_notes self.old)
            (known_lines (is_finished self.old) (has_notes self.old) stream) n result.text.now result.marks.now }
        ensures* after_borrow { sem 𝓛 (RestsBatch self.entry result) }
    {
        let count = self.take_lines();
        self.marked(count)
    }
}
