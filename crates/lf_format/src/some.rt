//! Whether a domain has a value that isn't taken for absence.

ghost use Rattle.std.specs.Prelude.{◌≡◌, ◌↔◌, ◌≤◌, ◌<◌, ℕ, List, [], IsTrue, IfSome, All};
ghost use Rattle.lf_core.specs.declared.values.Value.TheVariants as value;
ghost use Rattle.lf_domain.specs.Texts.{IsSized};
ghost use Rattle.lf_domain.specs.WordLists.{IsWordOf};
ghost use Rattle.lf_format.specs.Kinds.{HoldsKind, plain_text};
ghost use Rattle.lf_format.specs.Slots.{IsNotAbsence, HasPresent};

use crate::absence::{is_not_absence, is_present_number};
use crate::kind::Kind;
use crate::slot::Absent;
use lf_core::{Class, Domain, Value};
use lf_domain::{TextSet, Words};

/// Whether the bound isn't above the upper one.
fn is_within(min: u32, max: Option<u32>) -> bool
    ensures { IsTrue result ↔ IfSome max (λ top. min ≤ top) }
{
    match max {
        Some(most) => min <= most,
        None => true,
    }
}

/// Whether there is a text of so many letters of the class.
fn has_text(class: Class, min: u32, max: Option<u32>) -> bool
    ensures { IsTrue result ↔ ((text : List ℕ) × IsSized class min max text) }
{
    if !is_within(min, max) {
        return false;
    }
    min == 0 || !class.is_empty()
}

/// Whether there is a text of the set that isn't taken for absence.
fn has_present_text(set: TextSet, absent: Absent, quoted: bool) -> bool
    ensures { IsTrue result ↔ ((text : List ℕ) × IsSized set.class set.min set.max text × IsNotAbsence absent quoted text) }
{
    match absent {
        Absent::No => has_text(set.class, set.min, set.max),
        Absent::DashTwo => has_text(set.class, set.min, set.max),
        Absent::Blank => has_text(set.class, set.min.max(1), set.max),
        Absent::Dash => {
            if quoted {
                return has_text(set.class, set.min, set.max);
            }
            has_text(set.class.without(b'-'), set.min, set.max)
                || has_text(set.class, set.min.max(2), set.max)
        }
    }
}

/// Whether the word isn't taken for absence.
fn is_present_word(absent: Absent, quoted: bool, word: &[u8]) -> bool
    ensures { IsTrue result ↔ (All (λ letter. letter < 256) word.now × IsNotAbsence absent quoted word.now) }
{
    is_not_absence(absent, quoted, word)
}

/// Whether there is a word of the list that isn't taken for absence.
fn has_present_word(words: &Words, absent: Absent, quoted: bool) -> bool
    ensures { IsTrue result ↔ ((text : List ℕ) × IsWordOf words.now.list text × IsNotAbsence absent quoted text) }
{
    words
        .list
        .as_slice()
        .iter()
        .any(|word| is_present_word(absent, quoted, word.as_slice()))
}

/// Whether the greatest number of the domain is held and isn't taken for absence.
fn is_present_bound(kind: &Kind, absent: Absent, quoted: bool, hi: i64) -> bool
    ensures { IsTrue result ↔ (HoldsKind kind.now (value.Num hi) × IsNotAbsence absent quoted (plain_text kind.now (value.Num hi))) }
{
    if !kind.check(&Value::Num(hi)) {
        return false;
    }
    is_present_number(kind, absent, quoted, hi)
}

/// Whether the domain has a value that isn't taken for absence.
pub(crate) fn has_present(kind: &Kind, absent: Absent, quoted: bool) -> bool
    ensures { IsTrue result ↔ HasPresent kind.now absent quoted }
{
    match kind {
        Kind::Num(d) => is_present_bound(kind, absent, quoted, d.hi),
        Kind::DashZero(d) => is_present_bound(kind, absent, quoted, d.hi),
        Kind::Fixed3(d) => is_present_bound(kind, absent, quoted, d.hi),
        Kind::Padded(d) => is_present_bound(kind, absent, quoted, d.hi),
        Kind::Words(d) => has_present_word(d, absent, quoted),
        Kind::Text(d) => has_present_text(*d, absent, quoted),
        Kind::Query(_) => true,
        Kind::Clf(_) => true,
        Kind::Iso(_) => true,
        Kind::IsoMillis(_) => true,
        Kind::Ha(_) => true,
        Kind::Date(_) => true,
        Kind::Clock(_) => true,
    }
}
