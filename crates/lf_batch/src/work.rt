//! Works on the lines of a batch.

ghost use Rattle.std.specs.Prelude.{ℕ, List, ◌++◌, All, IfOk};
ghost use Rattle.lf_stream.specs.declared.marks.Mark.{Mark as OneMark};
ghost use Rattle.lf_batch.specs.Within.{LiesWithin};

use lf_core::OutOfMemory;
use lf_stream::Mark;
use std::alloc::Global;

/// A work on the lines of a batch. What it makes of some lines is a part, and the parts of lines that follow one another
/// are joined to that of all of them.
pub trait Work {
    type Part: Send + Drop;

    /// What may be made of the marks' lines.
    ghost makes: { Self → List ℕ → List OneMark → Self.Part → Type 0 };

    /// Makes the part of the marks' lines.
    fn make(&self, alloc: Global, text: &[u8], marks: &[Mark]) -> Result<Self::Part, OutOfMemory>
        requires { All (LiesWithin text.now) marks.now }
        ensures { IfOk result (makes self.now text.now marks.now) };

    /// Joins the parts of lines that follow one another.
    fn join(&self, first: Self::Part, second: Self::Part) -> Result<Self::Part, OutOfMemory>
        ensures { (text : List ℕ) (front back : List OneMark) → makes self.now text front first
            → makes self.now text back second → IfOk result (makes self.now text (front ++ back)) };
}
