//! A term's effect on the slots of a format, one after another.

ghost use Rattle.std.specs.Prelude.{◌≡◌, ◌+◌, ◌<◌, ◌≤◌, length, OnOk, IfErr, MatchOption};
ghost use Rattle.lf_limits.specs.Limits.{most_slots};
ghost use Rattle.lf_format.specs.Keeps.{HoldsSome, EachKept, slots_in};
ghost use Rattle.lf_narrow.specs.Effects.{narrowed_slot};
ghost use Rattle.lf_narrow.specs.Narrowed.{is_named, slot_after, pieces_after, HasSlot, Stands, EachStands, IsSlotFault, IsFirstFault, IsFine, IsTermFault, IsSo};
ghost use Rattle.lf_narrow.specs.Said.{rule_said};

use crate::fault::NarrowFault;
use crate::reading::Term;
use crate::rules::narrow_slot;
use lf_format::{Piece, Slot};

impl Term {
    /// Whether the term speaks of the slot of the number.
    fn names(self, k: u32) -> bool
        ensures { result ≡ is_named self.slot k }
    {
        match self.slot {
            None => true,
            Some(n) => n == k,
        }
    }
}

/// Does to the slot of the number what the term says.
fn step_slot(term: Term, k: u32, slot: &mut Slot) -> Result<(), NarrowFault>
    requires { HoldsSome slot.old }
    ensures after { OnOk result (slot.new ≡ slot_after term.slot (narrowed_slot (rule_said term.rule)) k slot.old) }
    ensures stands { OnOk result (Stands term.slot (narrowed_slot (rule_said term.rule)) k slot.old) }
    ensures fault { IfErr result (λ fault. IsSo (IsSlotFault term.slot (narrowed_slot (rule_said term.rule)) k slot.old) fault) }
{
    if !term.names(k) {
        return Ok(());
    }
    let acts = narrow_slot(term.rule, slot);
    if term.slot.is_some() & !acts {
        return Err(NarrowFault::WrongKind(k));
    }
    if !slot.holds_any()? {
        return Err(NarrowFault::Empty(k));
    }
    Ok(())
}

/// Does to the slots what the term says, the first of them with the number `k`.
fn step_slots(term: Term, k: u32, pieces: &mut [Piece]) -> Result<(), NarrowFault>
    requires kept { EachKept pieces.old }
    requires few { k + length (slots_in pieces.old) ≤ most_slots + 1 }
    ensures after { OnOk result (pieces.new ≡ pieces_after term.slot (narrowed_slot (rule_said term.rule)) k pieces.old) }
    ensures stand { OnOk result (EachStands term.slot (narrowed_slot (rule_said term.rule)) k pieces.old) }
    ensures fault { IfErr result (λ fault. IsSo (IsFirstFault term.slot (narrowed_slot (rule_said term.rule)) k pieces.old) fault) }
{
    let Some((piece, rest)) = pieces.split_first_mut() else {
        return Ok(());
    };
    match piece {
        Piece::Literal(_) => step_slots(term, k, rest),
        Piece::Slot(slot) => {
            step_slot(term, k, slot)?;
            step_slots(term, k + 1, rest)
        }
    }
}

fn count_slots(pieces: &[Piece]) -> u32
    requires { length (slots_in pieces.now) ≤ most_slots }
    ensures { result ≡ length (slots_in pieces.now) }
{
    match pieces.split_first() {
        None => 0,
        Some((Piece::Literal(_), rest)) => count_slots(rest),
        Some((Piece::Slot(_), rest)) => 1 + count_slots(rest),
    }
}

/// The number of the slot that is named, where no slot has it.
fn missing(named: Option<u32>, pieces: &[Piece]) -> Option<u32>
    requires { length (slots_in pieces.now) ≤ most_slots }
    ensures { MatchOption result (HasSlot named pieces.now) (λ k. (named ≡ Some k) × (length (slots_in pieces.now) < k)) }
{
    let k = named?;
    if count_slots(pieces) < k {
        return Some(k);
    }
    None
}

/// Does to the pieces what the term says, or leaves them in between at its first fault.
pub(crate) fn apply(term: Term, pieces: &mut [Piece]) -> Result<(), NarrowFault>
    requires kept { EachKept pieces.old }
    requires few { length (slots_in pieces.old) ≤ most_slots }
    ensures after { OnOk result (pieces.new ≡ pieces_after term.slot (narrowed_slot (rule_said term.rule)) 1 pieces.old) }
    ensures fine { OnOk result (IsFine term.slot (narrowed_slot (rule_said term.rule)) pieces.old) }
    ensures fault { IfErr result (λ fault. IsSo (IsTermFault term.slot (narrowed_slot (rule_said term.rule)) pieces.old) fault) }
{
    match missing(term.slot, pieces) {
        Some(k) => Err(NarrowFault::NoSlot(k)),
        None => step_slots(term, 1, pieces),
    }
}
