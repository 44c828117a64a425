//! The format that a side of a command line gives.

ghost use Rattle.std.specs.Prelude.{◌≡◌, ◌≤◌, List, ℕ, length, IfOk, IfErr};
ghost use Rattle.std.specs.Option.{ForSome};
ghost use Rattle.lf_limits.specs.Limits.{most_text_bytes};
ghost use Rattle.lf_app.specs.Sides.{dash_apart, Leaves, Gives, IsShort, IsSideFault, IsNarrowingFault, side_fault_of};

use crate::commands::{Refusal, WhichSide};
use lf_core::Str;
use lf_format::Format;
use lf_fronts::parse;
use lf_narrow::{NarrowFault, NarrowRefused, narrow};
use lf_spelling::FormatFault;
use lf_words::Side;
use std::alloc::Global;

/// Why a side of a command line gives no format.
#[derive(Drop)]
pub enum SideFault {
    Refused(Refusal),
    OutOfMemory,
}

/// The fault of a narrowing as that of its side.
fn side_fault(which: WhichSide, fault: NarrowFault) -> SideFault
    ensures { result ≡ side_fault_of which fault }
{
    match fault {
        NarrowFault::OutOfMemory => SideFault::OutOfMemory,
        NarrowFault::Syntax(_)
        | NarrowFault::NoSlot(_)
        | NarrowFault::WrongKind(_)
        | NarrowFault::Empty(_) => SideFault::Refused(Refusal::BadNarrowing(which, fault)),
    }
}

/// The format as it is spelled, or with a lone dash told from absence where that is asked for.
fn told_apart(format: Format, two: bool) -> Format
    ensures { result ≡ dash_apart two format }
{
    if two {
        return format.with_two();
    }
    format
}

/// What the narrowing, if one is given, leaves of the format.
fn narrow_by(
    alloc: Global,
    which: WhichSide,
    format: Format,
    narrowing: &Option<Str>,
) -> Result<Format, SideFault>
    requires { ForSome {T = List ℕ} narrowing.now (λ text. length text ≤ most_text_bytes) }
    ensures left { IfOk result (Leaves narrowing.now format) }
    ensures fault { IfErr result (IsNarrowingFault which narrowing.now format) }
{
    let Some(text) = narrowing else {
        return Ok(format);
    };
    match narrow(alloc, format, text.as_str()) {
        Ok(left) => Ok(left),
        Err(NarrowRefused { format: _, fault }) => Err(side_fault(which, fault)),
    }
}

/// The format that a side gives, with a lone dash told from absence where `two` says so.
pub fn read_side(
    alloc: Global,
    which: WhichSide,
    two: bool,
    side: &Side,
) -> Result<Format, SideFault>
    requires { IsShort side.now }
    ensures given { IfOk result (Gives two side.now) }
    ensures fault { IfErr result (IsSideFault which two side.now) }
{
    match parse(alloc, side.front, side.format.as_str()) {
        Ok(spelled) => narrow_by(alloc, which, told_apart(spelled, two), &side.narrow),
        Err(FormatFault::At(place, cause)) => {
            Err(SideFault::Refused(Refusal::BadFormat(which, place, cause)))
        }
        Err(FormatFault::OutOfMemory) => Err(SideFault::OutOfMemory),
    }
}
