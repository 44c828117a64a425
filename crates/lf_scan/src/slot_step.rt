//! The reading of a slot: absence, quotes, and a value between them.
ghost use Rattle.std.specs.Prelude.{◌≡◌, ◌++◌, true, false, IfOk, IfSome};
ghost use Rattle.lf_core.specs.Adds.{BeginsWith};
ghost use Rattle.lf_format.specs.Slots.{holds_missing, missing_text};
ghost use Rattle.lf_scan.specs.Reads.{ReadsSlot};
ghost use Rattle.lf_scan.specs.Steps.{slot_of};

use crate::absence::{after_absence, is_present, may_miss};
use crate::literals::after_byte;
use crate::value_step::ValueStep;
use lf_core::{Bytes, OutOfMemory, Str};
use lf_format::{Absent, Slot};
use lf_stamp::Recent;
use std::alloc::Global;

/// A slot, how its values are read, and the byte that is guessed to follow.
#[derive(Debug, Drop)]
pub struct SlotStep {
    pub name: Str,
    pub value: ValueStep,
    pub absent: Absent,
    pub present: bool,
    pub quoted: bool,
    pub stop: Option<u8>,
}

impl SlotStep {
    /// The step of the slot, which the byte is guessed to follow.
    pub(crate) fn of(slot: &Slot, stop: Option<u8>) -> Result<SlotStep, OutOfMemory>
        ensures { IfOk result (λ step. slot_of step ≡ slot.now) }
    {
        let name = slot.name.copy()?;
        let value = ValueStep::of(&slot.kind, slot.code, inner_stop(slot.quoted, stop))?;
        Ok(SlotStep {
            name,
            value,
            absent: slot.absent,
            present: slot.present,
            quoted: slot.quoted,
            stop,
        })
    }

    /// What follows the text that stands for absence, where the slot holds `Missing` and what is guessed follows.
    fn after_missing<'a>(&self, text: &'a [u8]) -> Option<&'a [u8]>
        ensures { IfSome result (λ left. (holds_missing self.now.absent self.now.present ≡ true) × (text.now ≡ missing_text self.now.absent self.now.quoted ++ left.now)) }
    {
        if !may_miss(self.absent, self.present) {
            return None;
        }
        let left = after_absence(self.absent, self.quoted, text)?;
        if left.first().copied() == self.stop {
            Some(left)
        } else {
            None
        }
    }

    /// Reads a value without quotes.
    fn read_bare<'a>(
        &self,
        alloc: Global,
        recent: &mut Recent,
        text: &'a [u8],
        into: &mut Bytes,
    ) -> Result<Option<&'a [u8]>, OutOfMemory>
        requires { self.now.quoted ≡ false }
        ensures read { IfOk result (λ found. IfSome found (λ left. ReadsSlot (slot_of self.now) text.now left.now into.old into.new)) }
        ensures kept { BeginsWith into.new into.old }
    {
        let Some(left) = self.value.read(alloc, recent, text, into)? else {
            return Ok(None);
        };
        if !is_present(self.absent, false, text, left) {
            return Ok(None);
        }
        Ok(Some(left))
    }

    /// Reads a value in quotes.
    fn read_quoted<'a>(
        &self,
        alloc: Global,
        recent: &mut Recent,
        text: &'a [u8],
        into: &mut Bytes,
    ) -> Result<Option<&'a [u8]>, OutOfMemory>
        requires { self.now.quoted ≡ true }
        ensures read { IfOk result (λ found. IfSome found (λ left. ReadsSlot (slot_of self.now) text.now left.now into.old into.new)) }
        ensures kept { BeginsWith into.new into.old }
    {
        let Some(inner) = after_byte(b'"', text) else {
            return Ok(None);
        };
        let Some(more) = self.value.read(alloc, recent, inner, into)? else {
            return Ok(None);
        };
        if !is_present(self.absent, true, inner, more) {
            return Ok(None);
        }
        let Some(left) = after_byte(b'"', more) else {
            return Ok(None);
        };
        Ok(Some(left))
    }

    /// Reads what the slot prints for a value, and adds the value's JSON; tells what is left, and none where the text
    /// doesn't fit.
    pub(crate) fn read<'a>(
        &self,
        alloc: Global,
        recent: &mut Recent,
        text: &'a [u8],
        into: &mut Bytes,
    ) -> Result<Option<&'a [u8]>, OutOfMemory>
        ensures read { IfOk result (λ found. IfSome found (λ left. ReadsSlot (slot_of self.now) text.now left.now into.old into.new)) }
        ensures kept { BeginsWith into.new into.old }
    {
        if let Some(left) = self.after_missing(text) {
            into.extend(b"null")?;
            return Ok(Some(left));
        }
        if self.quoted {
            return self.read_quoted(alloc, recent, text, into);
        }
        self.read_bare(alloc, recent, text, into)
    }
}

/// What stops the text of a value: its quote, or what follows the slot.
fn inner_stop(quoted: bool, stop: Option<u8>) -> Option<u8> {
    if quoted { Some(b'"') } else { stop }
}
