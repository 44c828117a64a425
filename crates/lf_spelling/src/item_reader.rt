//! A front reads the text of a format, an item after the other.

ghost use Rattle.std.specs.Prelude.{Bool, ◌≡◌, ℕ, ◌<◌, ◌≤◌, List, [], ◌∷◌, length, IfOk};
ghost use Rattle.lf_limits.specs.Limits.{most_text_bytes};
ghost use Rattle.lf_spelling.specs.Items.{Item, Reading};
ghost use Rattle.std.specs.Str.{IsUtf8};
ghost use Rattle.lf_spelling.specs.Cuts.{EndsText};
ghost use Rattle.lf_spelling.specs.ItemReaders.{ReadsItems, GivesItem};
ghost use Rattle.lf_spelling.specs.Pieces.{slots_of};
ghost use Rattle.lf_format.specs.Shape.{Shape};
ghost use Rattle.lf_spelling.specs.Spelling.{IsPieces, IsAnswer, Spells, Faulty, AnswersFormat, AnswersFault, HasOneAnswer};
ghost use Rattle.lf_spelling.specs.declared.fault.Cause.{Cause};
ghost use Rattle.lf_format.specs.declared.format.LineEnd.{LineEnd};

use crate::built::Built;
use crate::fault::{Cause, FormatFault, ItemFault};
use lf_format::{Format, LineEnd, Piece, Slot};
use lf_limits::MOST_SLOTS;
use std::alloc::Global;

/// What an item gives to a format. `Spaced` is a slot after a literal space, and `Braced` one between
/// a literal `{` and a literal `}`.
#[derive(Debug, Drop)]
pub enum Given {
    /// Nothing; such an item may still change the state.
    Nothing,
    /// One byte of a literal.
    Byte(u8),
    Slot(Slot),
    Spaced(Slot),
    Braced(Slot),
}

impl Given {
    /// How many slots are given.
    fn slots(&self) -> u32
        ensures { result ≡ slots_of (self.now ∷ []) }
    {
        match self {
            Given::Nothing | Given::Byte(_) => 0,
            Given::Slot(_) | Given::Spaced(_) | Given::Braced(_) => 1,
        }
    }
}

/// What was read: what the item gives, and how many bytes it has.
#[derive(Debug, Drop)]
pub struct Taken {
    pub given: Given,
    pub len: usize,
}

/// A language in which formats are spelled, item by item. Its values are the states between two items.
pub trait ItemReader {
    /// In this state and before these bytes the item stands.
    ghost item_is: { Self → Item Self → List ℕ → Type 0 };

    /// In this state no item stands at the start of these bytes, for this cause.
    ghost fault_is: { Self → List ℕ → Cause → Type 0 };

    /// What a reader finds at the start of these bytes.
    ghost reading: { Self → List ℕ → Reading Self };

    /// Reads the item at the start.
    fn item(&mut self, alloc: Global, rest: &[u8]) -> Result<Taken, ItemFault>
        requires some { 0 < length rest.now }
        requires text { EndsText rest.now }
        ensures { GivesItem (reading self.old rest.now) self.new rest.now result };

    /// At the start of a text stands one item, or no item for one cause, and what an item gives is good.
    ghost laws: { ReadsItems reading item_is fault_is };
}

/// Each text spells one format, or it has one first fault.
pub fn one_answer<F: ItemReader>(front: &F)
    ensures { (end : LineEnd) (notes : Bool) (text : List ℕ) → HasOneAnswer F.item_is F.fault_is front.now end notes text }
{
    let _front = front;
}

/// The format that a text spells, or its first fault.
pub fn read_text<F: ItemReader + Drop>(
    alloc: Global,
    front: F,
    end: LineEnd,
    notes: bool,
    text: &[u8],
) -> Result<Format, FormatFault>
    requires short { length text.now ≤ most_text_bytes }
    requires text { IsUtf8 text.now }
    // What is answered is so.
    ensures spelled { IfOk result (λ format. Spells F.item_is front end notes text.now format) }
    ensures faulty { (place : ℕ) (cause : Cause) → result ≡ Err (FormatFault.At place cause) → Faulty F.item_is F.fault_is front text.now place cause }
    // What is so is answered, unless memory runs out.
    ensures only_spelled { (format : Shape) → Spells F.item_is front end notes text.now format → AnswersFormat format result }
    ensures only_faulty { (place : ℕ) (cause : Cause) → Faulty F.item_is F.fault_is front text.now place cause → AnswersFault place cause result }
{
    read_whole(alloc, front, end, notes, text)
}

fn read_whole<F: ItemReader + Drop>(
    alloc: Global,
    front: F,
    end: LineEnd,
    notes: bool,
    text: &[u8],
) -> Result<Format, FormatFault>
    requires short { length text.now ≤ most_text_bytes }
    requires text { IsUtf8 text.now }
    ensures { IsAnswer F.item_is F.fault_is front end notes text.now result }
{
    match read_items(alloc, front, text) {
        Ok(pieces) => Ok(Format::new(pieces, end, notes)),
        Err(fault) => Err(fault),
    }
}

fn read_items<F: ItemReader + Drop>(
    alloc: Global,
    front: F,
    text: &[u8],
) -> Result<Vec<Piece>, FormatFault>
    requires short { length text.now ≤ most_text_bytes }
    requires text { IsUtf8 text.now }
    ensures { IsPieces F.item_is F.fault_is front text.now result }
{
    let mut state = front;
    let mut built = Built::new(alloc);
    let mut at: usize = 0;
    while at < text.len() {
        let rest = text.split_at(at).1;
        let taken = match state.item(alloc, rest) {
            Ok(taken) => taken,
            Err(ItemFault::OutOfMemory) => return Err(FormatFault::OutOfMemory),
            Err(ItemFault::Fault(cause)) => return Err(FormatFault::At(at as u32, cause)),
        };
        if MOST_SLOTS < built.slots + taken.given.slots() {
            return Err(FormatFault::At(at as u32, Cause::TooManySlots));
        }
        built.add(alloc, taken.given)?;
        at += taken.len;
    }
    let pieces = built.finish(alloc)?;
    if pieces.as_slice().is_empty() {
        return Err(FormatFault::At(0, Cause::EmptyFormat));
    }
    Ok(pieces)
}
