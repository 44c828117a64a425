//! Slots, and the values that they hold.

ghost use Rattle.std.specs.Prelude.{◌≡◌, ◌↔◌, IsTrue, IfOk};
ghost use Rattle.lf_format.specs.Keeps.{HoldsSome};
ghost use Rattle.lf_format.specs.Slots.{Holds, HoldsPresent};

use crate::absence::{holds_missing, is_present};
use crate::kind::Kind;
use crate::some::has_present;
use lf_core::{Domain, OutOfMemory, Str, Value};
use lf_escape::Coding;

/// How a slot prints that its value is missing: not at all, as `-` (and then no value is printed so),
/// as `-` beside a value that is printed so, or as nothing.
#[derive(Clone, Copy, Debug, PartialEq, Eq)]
pub enum Absent {
    No,
    Dash,
    DashTwo,
    Blank,
}

/// A place of a line that holds a value. `present` says that the value is never missing, and `quoted`
/// that a present value is printed in quotes.
#[derive(Debug, Drop)]
pub struct Slot {
    /// What the slot is called after its spelling, such as `%>s`; no line shows it.
    pub name: Str,
    pub kind: Kind,
    /// How the letters of a value's plain text are written.
    pub code: Coding,
    pub absent: Absent,
    pub present: bool,
    pub quoted: bool,
}

impl Slot {
    /// An equal slot, on the same allocator.
    pub fn copy(&self) -> Result<Slot, OutOfMemory>
        ensures { IfOk result (λ copy. copy ≡ self.now) }
    {
        let name = self.name.copy()?;
        let kind = self.kind.copy()?;
        Ok(Slot {
            name,
            kind,
            code: self.code,
            absent: self.absent,
            present: self.present,
            quoted: self.quoted,
        })
    }

    /// Whether the slot holds the value.
    pub fn holds(&self, value: &Value) -> bool
        ensures { IsTrue result ↔ Holds self.now value.now }
    {
        match value {
            Value::Missing => holds_missing(self.absent, self.present),
            _ => self.holds_present(value),
        }
    }

    /// Whether the domain holds the value, and it isn't taken for absence.
    fn holds_present(&self, value: &Value) -> bool
        ensures { IsTrue result ↔ HoldsPresent self.now value.now }
    {
        if !self.kind.check(value) {
            return false;
        }
        is_present(&self.kind, self.absent, self.quoted, value)
    }

    /// Whether the slot holds some value.
    pub fn holds_any(&self) -> Result<bool, OutOfMemory>
        ensures { IfOk result (λ any. IsTrue any ↔ HoldsSome self.now) }
    {
        Ok(self.has_value())
    }

    fn has_value(&self) -> bool
        ensures { IsTrue result ↔ HoldsSome self.now }
    {
        if holds_missing(self.absent, self.present) {
            return true;
        }
        has_present(&self.kind, self.absent, self.quoted)
    }
}
