//! Why a text is no field map.

ghost use Rattle.std.specs.Prelude.{◌≡◌};
ghost use Rattle.lf_map.specs.declared.fault.MapFault.TheVariants as fault;

use lf_core::OutOfMemory;
use std::alloc::AllocError;

/// The first fault of a field map.
#[derive(Clone, Copy, Debug, PartialEq, Eq)]
pub enum MapFault {
    /// The text is no map: the length of its longest prefix that some map begins with.
    Syntax(u32),
    /// No slot of its side has the number.
    NoSlot(u32),
    /// An earlier assignment has the target slot of the number.
    Twice(u32),
    /// The expression for the target slot of the number hasn't the slot's kind.
    Untyped(u32),
    /// The target slot of the number has no assignment.
    Unfilled(u32),
    OutOfMemory,
}

impl From<OutOfMemory> for MapFault {
    ghost from_gives = { λ _ e. e ≡ fault.OutOfMemory };

    fn from(_cause: OutOfMemory) -> MapFault {
        MapFault::OutOfMemory
    }
}

impl From<AllocError> for MapFault {
    ghost from_gives = { λ _ e. e ≡ fault.OutOfMemory };

    fn from(_cause: AllocError) -> MapFault {
        MapFault::OutOfMemory
    }
}
