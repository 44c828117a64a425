//! Laws over the definitions alone, each the contract of a function that does nothing.

ghost use Rattle.std.specs.Prelude.{◌≡◌, ◌⊎◌, ℕ, List, Option};
ghost use Rattle.lf_core.specs.declared.values.Value.{Value};
ghost use Rattle.lf_format.specs.declared.format.Piece.{Piece};
ghost use Rattle.lf_format.specs.Keeps.{EachKept};
ghost use Rattle.lf_format.specs.Lines.{Prints, PrintsNone};
ghost use Rattle.lf_machine.specs.LineBytes.{LiteralsAreBytes};
ghost use Rattle.lf_format.specs.Shape.{Shape};
ghost use Rattle.lf_compile.specs.Accepted.{IsAnswer};
ghost use Rattle.lf_compile.specs.declared.refused.Refused.{Refused};

/// Each format has one answer at most: it is accepted, or refused for one cause alone.
pub fn one_answer()
    ensures { (format : Shape) (one other : Option Refused) → IsAnswer format one → IsAnswer format other → one ≡ other }
{}

/// Each format that keeps what a format keeps, and whose literals are bytes, has an answer.
pub fn some_answer()
    ensures { (format : Shape) → EachKept format.pieces → LiteralsAreBytes format.pieces
        → (answer : Option Refused) × IsAnswer format answer }
{}

/// Some record of such a format prints a line, or none does.
pub fn lines_are_decided()
    ensures { (pieces : List Piece) → EachKept pieces → LiteralsAreBytes pieces → (line : List ℕ)
        → ((rec : List Value) × Prints pieces rec line) ⊎ PrintsNone pieces line }
{}
