//! Why a text narrows no format.

ghost use Rattle.std.specs.Prelude.{◌≡◌};
ghost use Rattle.lf_narrow.specs.declared.fault.NarrowFault.TheVariants as fault;

use lf_core::OutOfMemory;
use lf_format::Format;
use std::alloc::AllocError;

/// The first fault of a narrowing.
#[derive(Clone, Copy, Debug, PartialEq, Eq)]
pub enum NarrowFault {
    /// The text is no narrowing: the length of its longest prefix that some narrowing begins with.
    Syntax(u32),
    /// No slot has the number.
    NoSlot(u32),
    /// The rule doesn't act on the domain of the slot of the number.
    WrongKind(u32),
    /// The slot of the number holds no value after the term.
    Empty(u32),
    OutOfMemory,
}

/// A format that was not narrowed, as it was handed in, and why.
#[derive(Debug, Drop)]
pub struct NarrowRefused {
    pub format: Format,
    pub fault: NarrowFault,
}

impl From<OutOfMemory> for NarrowFault {
    ghost from_gives = { λ _ e. e ≡ fault.OutOfMemory };

    fn from(_cause: OutOfMemory) -> NarrowFault {
        NarrowFault::OutOfMemory
    }
}

impl From<AllocError> for NarrowFault {
    ghost from_gives = { λ _ e. e ≡ fault.OutOfMemory };

    fn from(_cause: AllocError) -> NarrowFault {
        NarrowFault::OutOfMemory
    }
}
