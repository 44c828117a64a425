//! Whether a value's plain text is taken for absence.

ghost use Rattle.std.specs.Prelude.{◌≡◌, ◌↔◌, IsTrue, [], ◌∷◌};
ghost use Rattle.lf_core.specs.declared.values.Value.TheVariants as Value;
ghost use Rattle.lf_format.specs.Kinds.{HoldsKind, plain_text};
ghost use Rattle.lf_format.specs.Slots.{holds_missing as is_missing_held, IsNotAbsence};
ghost use Rattle.lf_format.specs.Absence.{prints_zero_as_dash};

use crate::kind::Kind;
use crate::slot::Absent;
use lf_core::Value;

/// Whether a slot with this absence holds `Missing`.
pub(crate) fn holds_missing(absent: Absent, present: bool) -> bool
    ensures { result ≡ is_missing_held absent present }
{
    match absent {
        Absent::No => false,
        Absent::Dash | Absent::DashTwo | Absent::Blank => !present,
    }
}

/// Whether a value with this plain text isn't taken for absence.
pub(crate) fn is_not_absence(absent: Absent, quoted: bool, plain: &[u8]) -> bool
    ensures { IsTrue result ↔ IsNotAbsence absent quoted plain.now }
{
    match absent {
        Absent::No | Absent::DashTwo => true,
        Absent::Dash => quoted || plain != b"-".as_slice(),
        Absent::Blank => !plain.is_empty(),
    }
}

/// Whether zero's plain text is the dash.
fn prints_dash(kind: &Kind) -> bool
    ensures { result ≡ prints_zero_as_dash kind.now }
{
    match kind {
        Kind::DashZero(_) => true,
        _ => false,
    }
}

/// Whether the plain text of a number of the domain is the dash.
fn is_dash(kind: &Kind, number: i64) -> bool
    requires { HoldsKind kind.now (Value.Num number) }
    ensures { IsTrue result ↔ (plain_text kind.now (Value.Num number) ≡ 45 ∷ []) }
{
    prints_dash(kind) && number == 0
}

/// Whether a number of the domain isn't taken for absence.
pub(crate) fn is_present_number(kind: &Kind, absent: Absent, quoted: bool, number: i64) -> bool
    requires { HoldsKind kind.now (Value.Num number) }
    ensures { IsTrue result ↔ IsNotAbsence absent quoted (plain_text kind.now (Value.Num number)) }
{
    match absent {
        Absent::No => true,
        Absent::Dash => quoted || !is_dash(kind, number),
        Absent::DashTwo => true,
        Absent::Blank => true,
    }
}

/// Whether a value of the domain isn't taken for absence.
pub(crate) fn is_present(kind: &Kind, absent: Absent, quoted: bool, value: &Value) -> bool
    requires { HoldsKind kind.now value.now }
    ensures { IsTrue result ↔ IsNotAbsence absent quoted (plain_text kind.now value.now) }
{
    match value {
        Value::Text(text) => is_not_absence(absent, quoted, text.as_slice()),
        Value::Num(number) => is_present_number(kind, absent, quoted, *number),
        Value::Moment(_) | Value::Day(_) | Value::Clock(_) => true,
        Value::Missing => unreachable!(),
    }
}
