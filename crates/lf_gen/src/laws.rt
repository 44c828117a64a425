//! Laws over the definitions, each the contract of a function that does nothing.

ghost use Rattle.std.specs.Prelude.{◌≡◌, ℕ, List};
ghost use Rattle.lf_core.specs.declared.values.Value.{Value};
ghost use Rattle.lf_format.specs.Keeps.{EachKept};
ghost use Rattle.lf_format.specs.declared.format.Piece.{Piece};
ghost use Rattle.lf_gen.specs.Drawn.{IsDrawn};

/// No two records are drawn from a state.
pub fn one_record()
    ensures { (pieces : List Piece) (x : ℕ) (rec other : List Value) → IsDrawn pieces x rec → IsDrawn pieces x other → rec ≡ other }
{}

/// From each state a record of a format is drawn.
pub fn some_record()
    ensures { (pieces : List Piece) (x : ℕ) → EachKept pieces → (rec : List Value) × IsDrawn pieces x rec }
{}
