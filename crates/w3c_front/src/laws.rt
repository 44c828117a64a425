//! What holds of each format of the two languages.

ghost use Rattle.std.specs.Prelude.{◌≢◌, ℕ, List, All};
ghost use Rattle.lf_core.specs.declared.values.Value.{Value};
ghost use Rattle.lf_format.specs.Shape.{Shape};
ghost use Rattle.lf_format.specs.Lines.{IsRecordOf, line_text};
ghost use Rattle.w3c_front.specs.W3c.{SpellsDraft, SpellsIis};

/// No record's line holds a carriage return.
pub fn no_return()
    ensures draft { (text : List ℕ) (format : Shape) (rec : List Value) → SpellsDraft text format → IsRecordOf format.pieces rec → All (λ b. b ≢ 13) (line_text format.pieces rec) }
    ensures iis { (text : List ℕ) (format : Shape) (rec : List Value) → SpellsIis text format → IsRecordOf format.pieces rec → All (λ b. b ≢ 13) (line_text format.pieces rec) }
{}
