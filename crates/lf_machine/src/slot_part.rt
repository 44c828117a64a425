//! A slot as a part of its format's machine.

ghost use Rattle.lf_limits.specs.Limits.{most_size};
ghost use Rattle.lf_machine.specs.Sums.{most_sum};
ghost use Rattle.std.specs.Prelude.{◌≡◌, ◌+◌, ◌*◌, ◌/◌, ◌%◌, ◌<◌, ◌≤◌, ◌++◌, ◌∷◌, ◌==◌, ◌&&◌, [], IfOk, OnOk, cond, false, true, get_or, length, map};
ghost use Rattle.std.specs.List.{flat_map};
ghost use Rattle.std.specs.Option.{ForSome};
ghost use Rattle.lf_escape.specs.Codings.{coding_takes, coding_word};
ghost use Rattle.lf_format.specs.Kinds.{kind_machine};
ghost use Rattle.lf_machine.specs.Laid.{slot_steps, slot_top, slot_root};
ghost use Rattle.lf_machine.specs.PieceNumbers.{slot_count, slot_enters, slot_moves, slot_is_done, slot_is_empty, slot_bare};
ghost use Rattle.lf_code_table.specs.Table.{table_of, index_of};
ghost use Rattle.lf_machine.specs.Pieces.{is_one, is_blank, dash_of, blank_of};
ghost use Rattle.lf_machine.specs.Places.{IsNear, placed, aimed, one_move};
ghost use Rattle.lf_machine.specs.SlotMoves.{is_nil, inner_move};
ghost use Rattle.lf_machine.specs.LetterMoves.{one_letter, end_move};

use crate::place::{Aim, Moves, Place};
use lf_code_table::{CodeTable, is_word};
use lf_core::{Domain, OutOfMemory};
use lf_escape::Code;
use lf_format::{Absent, Slot};
use std::alloc::Global;
use std::marker::Model;

/// A slot as a part of its format's machine. Its points are first those of the domain's machine, each with each
/// proper prefix of the code's words, and then two of its own without quotes, and three with quotes.
#[derive(Drop)]
pub struct SlotPart {
    slot: Slot,
    table: CodeTable,
    top: u32,
}

impl Model for SlotPart {
    ghost use Rattle.lf_format.specs.declared.slot.Slot.{Slot};
    ghost use Rattle.lf_machine.specs.Laid.{IsSlotPart};

    ghost Value = { Slot };

    ghost view = { λ p. p.slot };

    ghost invariant = { λ p. IsSlotPart p.slot p.table p.top };
}

impl SlotPart {
    /// The slot as a part, which copies it and builds the table of its code.
    pub fn of(alloc: Global, slot: &Slot) -> Result<SlotPart, OutOfMemory>
        requires { slot_count slot.now.quoted slot.now ≤ most_size }
        ensures { IfOk result (λ part. part ≡ slot.now) }
    {
        let table = CodeTable::build(alloc, slot.code)?;
        let top = slot.kind.points() * table.width();
        let slot = slot.copy()?;
        Ok(SlotPart { slot, table, top })
    }

    /// The slot that the part is of.
    pub fn slot(&self) -> &Slot
        ensures { result.now ≡ self.now }
    {
        &self.slot
    }

    /// How many points the part has.
    pub fn points(&self) -> u32
        ensures { result ≡ slot_count self.now.quoted self.now }
    {
        if self.slot.quoted {
            return self.top + 3;
        }
        self.top + 2
    }

    /// Whether the slot may print nothing.
    pub fn is_empty(&self) -> bool
        ensures { result ≡ slot_is_empty self.now.quoted self.now }
    {
        if self.slot.quoted {
            return false;
        }
        self.is_bare()
    }

    /// Whether the slot may end at the point.
    pub fn is_done(&self, point: u32) -> bool
        ensures { result ≡ slot_is_done self.now.quoted self.now point }
    {
        if self.slot.quoted {
            return (self.top <= point) & !(point == self.top + 1);
        }
        if point < self.top {
            return self.is_root(point);
        }
        point == self.top
    }

    /// Adds the moves into the slot.
    pub fn push_enter(&self, byte: u8, place: Place, into: &mut Moves) -> Result<(), OutOfMemory>
        requires { IsNear place }
        ensures ok { OnOk result (into.new.items ≡ into.old.items ++ map (placed place) (slot_enters self.now.quoted self.now byte)) }
    {
        if self.slot.quoted {
            return self.push_quoted_enter(byte, place, into);
        }
        self.push_plain_enter(byte, place, into)
    }

    /// Adds the moves at a point of the slot.
    pub fn push_moves(
        &self,
        point: u32,
        byte: u8,
        place: Place,
        into: &mut Moves,
    ) -> Result<(), OutOfMemory>
        requires { IsNear place }
        ensures ok { OnOk result (into.new.items ≡ into.old.items ++ map (placed place) (slot_moves self.now.quoted self.now point byte)) }
    {
        if self.slot.quoted {
            return self.push_quoted_moves(point, byte, place, into);
        }
        self.push_plain_moves(point, byte, place, into)
    }

    fn push_plain_enter(&self, byte: u8, place: Place, into: &mut Moves) -> Result<(), OutOfMemory>
        requires { IsNear place }
        ensures ok { OnOk result (into.new.items ≡ into.old.items ++ map (placed place) (slot_enters false self.now byte)) }
    {
        self.push_dash(byte, place, into)?;
        let first = Aim {
            place,
            apart: is_one_dash(self.slot.absent),
            lone: self.top + 1,
        };
        self.push_steps(&[], byte, self.start(), &first, into)?;
        Ok(())
    }

    fn push_quoted_enter(&self, byte: u8, place: Place, into: &mut Moves) -> Result<(), OutOfMemory>
        requires { IsNear place }
        ensures ok { OnOk result (into.new.items ≡ into.old.items ++ map (placed place) (slot_enters true self.now byte)) }
    {
        place.put_if(byte == b'"', 0, self.top + 1, into)?;
        self.push_dash(byte, place, into)?;
        Ok(())
    }

    /// Adds the move over the dash of absence.
    fn push_dash(&self, byte: u8, place: Place, into: &mut Moves) -> Result<(), OutOfMemory>
        requires { IsNear place }
        ensures ok { OnOk result (into.new.items ≡ into.old.items ++ map (placed place) (cond (dash_of self.now.absent self.now.present && byte == 45) (one_move 1 (slot_top self.now)) [])) }
    {
        let dashed = prints_dash(self.slot.absent, self.slot.present) & (byte == b'-');
        place.put_if(dashed, 1, self.top, into)
    }

    fn push_plain_moves(
        &self,
        point: u32,
        byte: u8,
        place: Place,
        into: &mut Moves,
    ) -> Result<(), OutOfMemory>
        requires { IsNear place }
        ensures ok { OnOk result (into.new.items ≡ into.old.items ++ map (placed place) (slot_moves false self.now point byte)) }
    {
        if point < self.top {
            let state = self.state(point);
            return self.push_steps(self.read_at(point), byte, state, &place.aim(), into);
        }
        if point == self.top {
            return Ok(());
        }
        match self.step(self.start(), b'-') {
            None => Ok(()),
            Some(after) => self.push_steps(&[], byte, after, &place.aim(), into),
        }
    }

    fn push_quoted_moves(
        &self,
        point: u32,
        byte: u8,
        place: Place,
        into: &mut Moves,
    ) -> Result<(), OutOfMemory>
        requires { IsNear place }
        ensures ok { OnOk result (into.new.items ≡ into.old.items ++ map (placed place) (slot_moves true self.now point byte)) }
    {
        if point < self.top {
            let closes = self.closes(point, byte);
            let state = self.state(point);
            return self.push_closing(closes, state, self.read_at(point), byte, place, into);
        }
        if point == self.top + 1 {
            let closes = (byte == b'"') & self.is_bare();
            return self.push_closing(closes, self.start(), &[], byte, place, into);
        }
        Ok(())
    }

    /// Whether the byte closes the quotes at a point among letters.
    fn closes(&self, point: u32, byte: u8) -> bool
        requires { point < slot_top self.now }
        ensures { result ≡ (byte == 34) && slot_root self.now point }
    {
        byte == b'"' && self.is_root(point)
    }

    /// Adds the closing quote, where the byte is one, and the moves by a letter's byte.
    fn push_closing(
        &self,
        closes: bool,
        state: u32,
        read: &[u8],
        byte: u8,
        place: Place,
        into: &mut Moves,
    ) -> Result<(), OutOfMemory>
        requires among { state < (kind_machine self.now.kind).count }
        requires near { IsNear place }
        ensures ok { OnOk result (into.new.items ≡ into.old.items ++ map (placed place) (cond closes (one_move 1 (slot_top self.now + 2)) [] ++ slot_steps self.now state read.now byte)) }
    {
        place.put_if(closes, 1, self.top + 2, into)?;
        self.push_steps(read, byte, state, &place.aim(), into)?;
        Ok(())
    }

    /// Adds the moves from a point of the domain's machine and what was read of a word.
    fn push_steps(
        &self,
        read: &[u8],
        byte: u8,
        state: u32,
        aim: &Aim,
        into: &mut Moves,
    ) -> Result<(), OutOfMemory>
        requires among { state < (kind_machine self.now.kind).count }
        requires near { IsNear aim.now.place }
        requires lone { aim.now.lone ≤ most_sum }
        ensures ok { OnOk result (into.new.items ≡ into.old.items ++ map (aimed aim.now) (slot_steps self.now state read.now byte)) }
    {
        self.push_inner(read, byte, state, aim, into)?;
        if read.is_empty() {
            self.push_ends(self.table.lone(byte), state, aim, into)?;
            return Ok(());
        }
        self.push_letters(self.table.ending(byte), read, byte, state, aim, into)?;
        Ok(())
    }

    /// Adds the move by a byte inside a word.
    fn push_inner(
        &self,
        read: &[u8],
        byte: u8,
        state: u32,
        aim: &Aim,
        into: &mut Moves,
    ) -> Result<(), OutOfMemory>
        requires among { state < (kind_machine self.now.kind).count }
        requires near { IsNear aim.now.place }
        requires lone { aim.now.lone ≤ most_sum }
        ensures ok { OnOk result (into.new.items ≡ into.old.items ++ map (aimed aim.now) (inner_move (length (table_of self.now.code)) state (index_of (table_of self.now.code) (read.now ++ byte ∷ [])))) }
    {
        match self.table.number_of(read, byte) {
            None => Ok(()),
            Some(number) => aim.put(2, self.point_of(state, number), into),
        }
    }

    /// Adds the moves by which what was read and the byte end one of the letters.
    fn push_letters(
        &self,
        letters: &[u8],
        read: &[u8],
        byte: u8,
        state: u32,
        aim: &Aim,
        into: &mut Moves,
    ) -> Result<(), OutOfMemory>
        requires among { state < (kind_machine self.now.kind).count }
        requires near { IsNear aim.now.place }
        requires lone { aim.now.lone ≤ most_sum }
        ensures ok { OnOk result (into.new.items ≡ into.old.items ++ map (aimed aim.now) (flat_map (one_letter (coding_takes self.now.code) (coding_word self.now.code) ((kind_machine self.now.kind).next state) 3 (length (table_of self.now.code)) (read.now ++ byte ∷ [])) letters.now)) }
    {
        match letters.split_first() {
            None => Ok(()),
            Some((letter, rest)) => {
                self.push_letter(*letter, read, byte, state, aim, into)?;
                self.push_letters(rest, read, byte, state, aim, into)
            }
        }
    }

    /// Adds the move by which what was read and the byte, where they are the letter's word, end the letter.
    fn push_letter(
        &self,
        letter: u8,
        read: &[u8],
        byte: u8,
        state: u32,
        aim: &Aim,
        into: &mut Moves,
    ) -> Result<(), OutOfMemory>
        requires among { state < (kind_machine self.now.kind).count }
        requires near { IsNear aim.now.place }
        requires lone { aim.now.lone ≤ most_sum }
        ensures ok { OnOk result (into.new.items ≡ into.old.items ++ map (aimed aim.now) (one_letter (coding_takes self.now.code) (coding_word self.now.code) ((kind_machine self.now.kind).next state) 3 (length (table_of self.now.code)) (read.now ++ byte ∷ []) letter)) }
    {
        if !self.slot.code.takes(letter) {
            return Ok(());
        }
        if !is_word(self.slot.code.word_of(letter).as_slice(), read, byte) {
            return Ok(());
        }
        self.push_end(letter, state, aim, into)
    }

    /// Adds the moves that end the letters, whose words were read.
    fn push_ends(
        &self,
        letters: &[u8],
        state: u32,
        aim: &Aim,
        into: &mut Moves,
    ) -> Result<(), OutOfMemory>
        requires among { state < (kind_machine self.now.kind).count }
        requires near { IsNear aim.now.place }
        requires lone { aim.now.lone ≤ most_sum }
        ensures ok { OnOk result (into.new.items ≡ into.old.items ++ map (aimed aim.now) (flat_map (end_move ((kind_machine self.now.kind).next state) 3 (length (table_of self.now.code))) letters.now)) }
    {
        match letters.split_first() {
            None => Ok(()),
            Some((letter, rest)) => {
                self.push_end(*letter, state, aim, into)?;
                self.push_ends(rest, state, aim, into)
            }
        }
    }

    /// Adds the move that ends the letter, whose word was read.
    fn push_end(
        &self,
        letter: u8,
        state: u32,
        aim: &Aim,
        into: &mut Moves,
    ) -> Result<(), OutOfMemory>
        requires among { state < (kind_machine self.now.kind).count }
        requires near { IsNear aim.now.place }
        requires lone { aim.now.lone ≤ most_sum }
        ensures ok { OnOk result (into.new.items ≡ into.old.items ++ map (aimed aim.now) (end_move ((kind_machine self.now.kind).next state) 3 (length (table_of self.now.code)) letter)) }
    {
        match self.step(state, letter) {
            None => Ok(()),
            Some(after) => aim.put(3 + letter as u32, self.root_of(after), into),
        }
    }

    /// The first point of the domain's machine.
    fn start(&self) -> u32
        ensures exact { result ≡ (kind_machine self.now.kind).first }
        ensures among { result < (kind_machine self.now.kind).count }
    {
        self.slot.kind.start()
    }

    /// The point of the domain's machine after the letter.
    fn step(&self, state: u32, letter: u8) -> Option<u32>
        requires { state < (kind_machine self.now.kind).count }
        ensures exact { result ≡ (kind_machine self.now.kind).next state letter }
        ensures among { ForSome result (λ after. after < (kind_machine self.now.kind).count) }
    {
        self.slot.kind.step(state, letter)
    }

    /// The point of the domain's machine and of the prefix of the number.
    fn point_of(&self, state: u32, number: u32) -> u32
        requires among { state < (kind_machine self.now.kind).count }
        requires within { number < length (table_of self.now.code) }
        ensures exact { result ≡ state * length (table_of self.now.code) + number }
        ensures low { result < most_size }
    {
        state * self.table.width() + number
    }

    /// The point of the domain's machine where nothing was read of a word.
    fn root_of(&self, state: u32) -> u32
        requires { state < (kind_machine self.now.kind).count }
        ensures exact { result ≡ state * length (table_of self.now.code) }
        ensures low { result < most_size }
    {
        state * self.table.width()
    }

    /// The domain's point at a point among letters.
    fn state(&self, point: u32) -> u32
        requires { point < slot_top self.now }
        ensures exact { result ≡ point / length (table_of self.now.code) }
        ensures among { result < (kind_machine self.now.kind).count }
    {
        let width = self.table.width();
        if width == 1 {
            return point;
        }
        point / width
    }

    /// What was read of a word at a point among letters.
    fn read_at(&self, point: u32) -> &[u8]
        ensures { result.now ≡ get_or (table_of self.now.code) (point % length (table_of self.now.code)) [] }
    {
        let width = self.table.width();
        if width == 1 {
            return &[];
        }
        self.table.prefix(point % width)
    }

    /// Whether the slot may print nothing, or nothing between its quotes.
    fn is_bare(&self) -> bool
        ensures { result ≡ slot_bare self.now }
    {
        let blank = prints_nothing(self.slot.absent, self.slot.present);
        let apart = is_blank_absent(self.slot.absent);
        let ends = self.slot.kind.ends(self.start());
        blank | (!apart & ends)
    }

    /// Whether the letters may end at a point among them.
    fn is_root(&self, point: u32) -> bool
        requires { point < slot_top self.now }
        ensures { result ≡ slot_root self.now point }
    {
        let none = is_empty_text(self.read_at(point));
        let ends = self.slot.kind.ends(self.state(point));
        none & ends
    }
}

/// Whether the text is empty.
pub fn is_empty_text(text: &[u8]) -> bool
    ensures { result ≡ is_nil text.now }
{
    match text.split_first() {
        None => true,
        Some(_) => false,
    }
}

/// Whether no present value may print a lone dash.
fn is_one_dash(absent: Absent) -> bool
    ensures { result ≡ is_one absent }
{
    match absent {
        Absent::Dash => true,
        _ => false,
    }
}

/// Whether absence prints nothing.
pub fn is_blank_absent(absent: Absent) -> bool
    ensures { result ≡ is_blank absent }
{
    match absent {
        Absent::Blank => true,
        _ => false,
    }
}

/// Whether the slot holds `Missing` and prints a dash for it.
fn prints_dash(absent: Absent, present: bool) -> bool
    ensures { result ≡ dash_of absent present }
{
    if present {
        return false;
    }
    match absent {
        Absent::Dash => true,
        Absent::DashTwo => true,
        _ => false,
    }
}

/// Whether the slot holds `Missing` and prints nothing for it.
fn prints_nothing(absent: Absent, present: bool) -> bool
    ensures { result ≡ blank_of absent present }
{
    if present {
        return false;
    }
    is_blank_absent(absent)
}
