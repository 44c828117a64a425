//! The laws of expressions.

ghost use Rattle.std.specs.Prelude.{◌≡◌, List, true};
ghost use Rattle.lf_core.specs.declared.values.Value.{Value};
ghost use Rattle.lf_format.specs.declared.format.Piece.{Piece};
ghost use Rattle.lf_format.specs.declared.kind.ValueKind.{ValueKind};
ghost use Rattle.lf_format.specs.Keeps.{slots_in};
ghost use Rattle.lf_format.specs.Lines.{IsRecordOf};
ghost use Rattle.lf_expression.specs.Exprs.{Expr};
ghost use Rattle.lf_expression.specs.Kinds.{has_kind, IsOfKind};
ghost use Rattle.lf_expression.specs.Values.{expr_value};

/// On a record of the source, an expression of a kind has no value of another.
pub fn keeps_kinds()
    ensures { (source : List Piece) (rec : List Value) (kind : ValueKind) (e : Expr) → IsRecordOf source rec → has_kind (slots_in source) kind e ≡ true → IsOfKind kind (expr_value e rec) }
{}
