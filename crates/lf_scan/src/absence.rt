//! Absence: what stands for it, and whether a slot may lack its value.
ghost use Rattle.std.specs.Prelude.{◌≡◌, ◌++◌, List, ℕ, true, IsTrue, IfSome};
ghost use Rattle.lf_format.specs.Slots.{holds_missing, missing_text, IsNotAbsence};

use crate::literals::after_byte;
use lf_format::Absent;

/// Whether a slot with this absence holds `Missing`.
pub(crate) fn may_miss(absent: Absent, present: bool) -> bool
    ensures { result ≡ holds_missing absent present }
{
    match absent {
        Absent::No => false,
        Absent::Dash | Absent::DashTwo | Absent::Blank => !present,
    }
}

/// What follows two quotes with nothing between them.
fn after_empty_quotes(text: &[u8]) -> Option<&[u8]>
    ensures { IfSome result (λ left. text.now ≡ missing_text Absent.Blank true ++ left.now) }
{
    after_byte(b'"', after_byte(b'"', text)?)
}

/// What follows the text that stands for absence.
pub(crate) fn after_absence(absent: Absent, quoted: bool, text: &[u8]) -> Option<&[u8]>
    ensures { IfSome result (λ left. text.now ≡ missing_text absent quoted ++ left.now) }
{
    match absent {
        Absent::No => None,
        Absent::Dash | Absent::DashTwo => after_byte(b'-', text),
        Absent::Blank => {
            if quoted {
                after_empty_quotes(text)
            } else {
                Some(text)
            }
        }
    }
}

/// Whether what stands before the rest of the text can't be taken for absence.
pub(crate) fn is_present(absent: Absent, quoted: bool, text: &[u8], left: &[u8]) -> bool
    ensures { (span : List ℕ) → text.now ≡ span ++ left.now → IsTrue result → IsNotAbsence absent quoted span }
{
    match absent {
        Absent::No | Absent::DashTwo => true,
        Absent::Dash => quoted || text.len() != left.len() + 1 || text.first() != Some(&b'-'),
        Absent::Blank => text.len() != left.len(),
    }
}
