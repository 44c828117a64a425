//! Expressions of a field map: their kinds, and their values on a record.
#![tactic(auto)]

mod answers;
mod civil;
mod expr;
mod found;
mod kinds;
mod laws;
mod parts;
mod values;

pub use expr::{Divisor, Expr, Offset, Operation};
pub use found::{Found, expr_value};
pub use kinds::has_kind;
pub use laws::keeps_kinds;
pub use parts::cut_before;
