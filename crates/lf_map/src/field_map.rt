//! A field map.

use lf_expression::Expr;
use lf_format::Format;
use std::marker::Model;

/// What each slot of the target gets from a record of the source.
#[derive(Drop)]
pub struct FieldMap {
    pub(crate) source: Format,
    pub(crate) target: Format,
    pub(crate) exprs: Vec<Expr>,
}

impl Model for FieldMap {
    ghost use Rattle.lf_map.specs.Shape.{MapShape, KeepsMap};
    ghost use Rattle.lf_expression.specs.contracts.expr.Expr as expr;
    ghost use Rattle.std.specs.Coded.{codes};

    ghost Value = { MapShape };

    ghost coded = { Prim.hlevel (codes, expr.the_row.coded) };

    ghost view = { λ m. record { source = m.source; target = m.target; exprs = m.exprs.items } };

    ghost invariant = { λ m. KeepsMap (record { source = m.source; target = m.target; exprs = m.exprs.items }) };
}
