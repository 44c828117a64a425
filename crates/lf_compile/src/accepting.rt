//! Whether a format has a reader, and the cause where it has none.
ghost use Rattle.std.specs.Prelude.{◌≡◌, ℕ, ◌≤◌, ◌⊎◌, List, Option, MatchOption, MatchResult, IfOk, IfErr, true};
ghost use Rattle.lf_core.specs.declared.values.Value.{Value};
ghost use Rattle.lf_core.specs.Written.{written};
ghost use Rattle.lf_format.specs.Size.{size_of};
ghost use Rattle.lf_limits.specs.Limits.{most_size};
ghost use Rattle.lf_machine.specs.LineMachine.{line_machine};
ghost use Rattle.lf_compile.specs.Accepted.{HasNoNote, IsAccepted, IsTooLarge, IsRefusedNote, IsRefusedConfusion, IsCauseOf, IsAnswer};
ghost use Rattle.lf_compile.specs.Notes.{IsLeastNote};
ghost use Rattle.lf_compile.specs.declared.refused.Confusion.{Confusion};
ghost use Rattle.lf_compile.specs.declared.refused.Refused.{Refused};

use crate::confusion::least_confusion;
use crate::finder::Finder;
use crate::note::least_note;
use crate::reader::Reader;
use crate::refused::{CompileRefused, Refused};
use lf_core::{OutOfMemory, Record};
use lf_format::Format;
use lf_limits::MOST_SIZE;
use lf_machine::FormatMachine;
use lf_product::{Pairs, distances};
use lf_scan::Plan;
use std::alloc::Global;

/// The reader of a readable format. A refusal gives the format back.
/// The time and memory that are used grow with the square of the format's size.
pub fn compile(alloc: Global, format: Format) -> Result<Reader, CompileRefused>
    ensures same { IfOk result (λ reader. reader ≡ format) }
    ensures ok { IfOk result (λ reader. IsAccepted format) }
    ensures kept { IfErr result (λ refused. refused.format ≡ format) }
    ensures too_large { IfErr result (λ refused. (size : ℕ) → refused.cause ≡ Refused.TooLarge size → IsTooLarge format size) }
    ensures hash { IfErr result (λ refused. (rec : List Value) → refused.cause ≡ Refused.Hash rec → IsRefusedNote format rec) }
    ensures ambiguous { IfErr result (λ refused. (confusion : Confusion) → refused.cause ≡ Refused.Ambiguous confusion → IsRefusedConfusion format confusion) }
    // What is so is answered, unless memory runs out.
    ensures exact { (answer : Option Refused) → IsAnswer format answer → MatchResult result
        (λ reader. answer ≡ None)
        (λ refused. (answer ≡ Some refused.cause) ⊎ (refused.cause ≡ Refused.OutOfMemory)) }
{
    let size = format.size();
    if size > MOST_SIZE {
        return Err(CompileRefused {
            format,
            cause: Refused::TooLarge(size),
        });
    }
    match finder_of(alloc, &format) {
        Ok(finder) => Ok(Reader::new(format, finder)),
        Err(cause) => Err(CompileRefused { format, cause }),
    }
}

/// The finder of the runs of the format, where that has a reader.
fn finder_of(alloc: Global, format: &Format) -> Result<Finder, Refused>
    requires { size_of format.now.pieces ≤ most_size }
    ensures same { IfOk result (λ finder. finder ≡ format.now.pieces) }
    ensures ok { IfOk result (λ finder. IsAccepted format.now) }
    ensures err { IfErr result (λ cause. IsCauseOf format.now cause) }
{
    let machine = FormatMachine::build(alloc, format)?;
    machine.is_small();
    let pairs = distances(alloc, &machine)?;
    if let Some(record) = refused_note(alloc, format, &machine, &pairs)? {
        return Err(Refused::Hash(record));
    }
    match least_confusion(alloc, &machine, &pairs)? {
        Some(confusion) => Err(Refused::Ambiguous(confusion)),
        None => {
            let plan = Plan::of(alloc, format)?;
            Ok(Finder::new(alloc, machine, pairs.into_table(), plan)?)
        }
    }
}

/// The least record whose line is a note.
fn refused_note(
    alloc: Global,
    format: &Format,
    machine: &FormatMachine,
    pairs: &Pairs,
) -> Result<Option<Record>, OutOfMemory>
    requires same { machine.now ≡ format.now.pieces }
    requires written { pairs.now ≡ written (line_machine machine.now) }
    ensures { IfOk result (λ found. MatchOption found
        (HasNoNote format.now)
        (λ rec. (format.now.notes ≡ true) × IsLeastNote format.now.pieces rec)) }
{
    if !format.notes() {
        return Ok(None);
    }
    least_note(alloc, machine, pairs)
}
