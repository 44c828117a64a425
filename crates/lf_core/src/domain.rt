//! The trait of domains: sets of values, each with its plain text.

ghost use Rattle.std.specs.Prelude.{◌≡◌, ◌<◌, ◌↔◌, ℕ, List, ◌++◌, IsTrue, IfOk, OnErr, OnOk, MatchOption};
ghost use Rattle.lf_core.specs.declared.values.Value.{Value};
ghost use Rattle.lf_core.specs.Adds.{AddsFront};
ghost use Rattle.lf_core.specs.Domain.{LetterMachine, IsDomain, IsPlainOf, IsPlainOfNone};

use crate::bytes::Bytes;
use crate::memory::OutOfMemory;
use crate::values::Value;
use std::alloc::Global;

/// A set of values other than `Missing`, with one plain text for each, and a machine over letters that
/// accepts exactly these texts.
pub trait Domain {
    /// The domain holds the value.
    ghost holds: { Self → Value → Type 0 };

    /// The plain text of a held value.
    ghost plain: { Self → Value → List ℕ };

    /// The machine over the letters of plain texts.
    ghost machine: { Self → LetterMachine };

    /// The most points that the machine may have.
    ghost size: { Self → ℕ };

    /// Whether the domain holds the value.
    fn check(&self, value: &Value) -> bool
        ensures { IsTrue result ↔ holds self.now value.now };

    /// Appends the plain text.
    fn write_plain(&self, value: &Value, into: &mut Bytes) -> Result<(), OutOfMemory>
        requires { holds self.now value.now }
        ensures ok { OnOk result (into.new ≡ into.old ++ plain self.now value.now) }
        ensures err { OnErr result (AddsFront into.old into.new (plain self.now value.now)) };

    /// The held value whose plain text this is, and none exactly where there is none.
    fn read_plain(&self, alloc: Global, text: &[u8]) -> Result<Option<Value>, OutOfMemory>
        ensures { IfOk result (λ found. MatchOption found (IsPlainOfNone (holds self.now) (plain self.now) text.now) (IsPlainOf (holds self.now) (plain self.now) text.now)) };

    /// How many points the machine has.
    fn points(&self) -> u32
        ensures { result ≡ (machine self.now).count };

    /// The point where the machine begins.
    fn start(&self) -> u32
        ensures { result ≡ (machine self.now).first };

    /// The point after the letter, and none where the machine has no step by it.
    fn step(&self, point: u32, letter: u8) -> Option<u32>
        requires { point < (machine self.now).count }
        ensures { result ≡ (machine self.now).next point letter };

    /// Whether a plain text may end at the point.
    fn ends(&self, point: u32) -> bool
        requires { point < (machine self.now).count }
        ensures { result ≡ (machine self.now).is_end point };

    /// What each domain keeps.
    ghost laws: { (d : Self) → IsDomain (holds d) (plain d) (machine d) (size d) };
}
