//! Why a text spells no format.

ghost use Rattle.std.specs.Prelude.{◌≡◌};
ghost use Rattle.lf_spelling.specs.declared.fault.FormatFault.TheVariants as fault;
ghost use Rattle.lf_spelling.specs.declared.fault.ItemFault.TheVariants as item;

use lf_core::OutOfMemory;

/// What is wrong at a place of the text.
#[derive(Clone, Copy, Debug, PartialEq, Eq)]
pub enum Cause {
    /// The name isn't in the front's table.
    UnknownName,
    /// A name, an argument or a byte that can't stand there, or a missing one.
    BadName,
    /// What is opened there is never closed, or the text ends too early.
    Unclosed,
    /// What stands for flags, statuses or an escape is none.
    BadFlags,
    /// A length that may not stand there, or isn't from 1 to 65535.
    BadLength,
    /// A line feed, or what stands for one.
    LineBreak,
    /// The text spells no piece; the place is 0.
    EmptyFormat,
    /// The item there is one slot more than `MOST_SLOTS`.
    TooManySlots,
}

/// The first fault of a text, with its place in bytes from 0, or want of memory.
#[derive(Clone, Copy, Debug, PartialEq, Eq)]
pub enum FormatFault {
    At(u32, Cause),
    OutOfMemory,
}

/// Why no item was read.
#[derive(Clone, Copy, Debug, PartialEq, Eq)]
pub enum ItemFault {
    /// No item stands there, for this cause.
    Fault(Cause),
    /// Memory ran out, and an item may stand there or none.
    OutOfMemory,
}

impl From<OutOfMemory> for FormatFault {
    ghost from_gives = { λ _ e. e ≡ fault.OutOfMemory };

    fn from(_error: OutOfMemory) -> FormatFault {
        FormatFault::OutOfMemory
    }
}

impl From<OutOfMemory> for ItemFault {
    ghost from_gives = { λ _ e. e ≡ item.OutOfMemory };

    fn from(_error: OutOfMemory) -> ItemFault {
        ItemFault::OutOfMemory
    }
}
