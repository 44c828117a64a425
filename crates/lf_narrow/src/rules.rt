//! The rules of terms, and what each leaves of a slot.

ghost use Rattle.std.specs.Prelude.{◌≡◌, IsSome, IsTrue, ◌↔◌};
ghost use Rattle.std.specs.Option.{unwrap_or};
ghost use Rattle.lf_narrow.specs.Terms.{letters, lengths, range};
ghost use Rattle.lf_core.specs.Class.{is_member};
ghost use Rattle.lf_narrow.specs.Bounds.{lesser, upper_bounded, met_letters, met_lengths, met_dashed, met_thousandths, met_padded};
ghost use Rattle.lf_narrow.specs.Classes.{passing};
ghost use Rattle.lf_narrow.specs.Effects.{narrowed_kind, narrowed_slot, with_kind};
ghost use Rattle.lf_narrow.specs.Said.{rule_said};

use lf_core::Class;
use lf_domain::{DashZero, Fixed3, NumRange, Padded, QueryText, TextSet};
use lf_format::{Kind, Slot};
use lf_limits::MOST_LENGTH;

/// The letters that are allowed, the least and the most of them, the least and the greatest number,
/// or that the value isn't missing.
#[derive(Clone, Copy)]
pub(crate) enum Rule {
    Letters(Class),
    Lengths(u32, Option<u32>),
    Range(i64, i64),
    Present,
}

/// The members of the class that are allowed.
fn kept(class: Class, allowed: Class) -> Class
    ensures { result ≡ passing (is_member allowed) class }
{
    class.both(allowed)
}

fn meet_letters(allowed: Class, d: TextSet) -> TextSet
    ensures { result ≡ met_letters (is_member allowed) d }
{
    TextSet {
        class: kept(d.class, allowed),
        min: d.min,
        max: d.max,
    }
}

fn with_letters(allowed: Class, kind: &Kind) -> Option<Kind>
    ensures { result ≡ narrowed_kind (letters (is_member allowed)) kind.now }
{
    match kind {
        Kind::Text(d) => Some(Kind::Text(meet_letters(allowed, *d))),
        Kind::Query(d) => Some(Kind::Query(QueryText {
            class: kept(d.class, allowed),
        })),
        _ => None,
    }
}

/// The lesser of two upper bounds.
fn lesser_of(one: Option<u32>, other: Option<u32>) -> Option<u32>
    ensures { result ≡ lesser one other }
{
    match one {
        None => other,
        Some(most) => match other {
            None => Some(most),
            Some(top) => Some(most.min(top)),
        },
    }
}

fn bounded(most: Option<u32>) -> Option<u32>
    ensures { result ≡ upper_bounded most }
{
    match most {
        None => None,
        Some(most) => Some(most.min(MOST_LENGTH)),
    }
}

fn meet(least: u32, most: Option<u32>, d: TextSet) -> TextSet
    ensures { result ≡ met_lengths least most d }
{
    TextSet {
        class: d.class,
        min: d.min.max(least).min(MOST_LENGTH),
        max: bounded(lesser_of(d.max, most)),
    }
}

fn with_lengths(least: u32, most: Option<u32>, kind: &Kind) -> Option<Kind>
    ensures { result ≡ narrowed_kind (lengths least most) kind.now }
{
    match kind {
        Kind::Text(d) => Some(Kind::Text(meet(least, most, *d))),
        _ => None,
    }
}

fn meet_dashed(lo: i64, hi: i64, d: DashZero) -> DashZero
    ensures { result ≡ met_dashed lo hi d }
{
    DashZero {
        lo: d.lo.max(lo),
        hi: d.hi.min(hi),
    }
}

fn meet_thousandths(lo: i64, hi: i64, d: Fixed3) -> Fixed3
    ensures { result ≡ met_thousandths lo hi d }
{
    Fixed3 {
        lo: d.lo.max(lo),
        hi: d.hi.min(hi),
    }
}

fn meet_padded(lo: i64, hi: i64, d: Padded) -> Padded
    ensures { result ≡ met_padded lo hi d }
{
    Padded {
        radix: d.radix,
        width: d.width,
        lo: d.lo.max(lo),
        hi: d.hi.min(hi),
    }
}

fn with_range(lo: i64, hi: i64, kind: &Kind) -> Option<Kind>
    ensures { result ≡ narrowed_kind (range lo hi) kind.now }
{
    match kind {
        Kind::Num(d) => Some(Kind::Num(NumRange {
            lo: d.lo.max(lo),
            hi: d.hi.min(hi),
        })),
        Kind::DashZero(d) => Some(Kind::DashZero(meet_dashed(lo, hi, *d))),
        Kind::Fixed3(d) => Some(Kind::Fixed3(meet_thousandths(lo, hi, *d))),
        Kind::Padded(d) => Some(Kind::Padded(meet_padded(lo, hi, *d))),
        _ => None,
    }
}

/// The domain that the rule leaves, where it acts on the domain.
fn with_rule(rule: Rule, kind: &Kind) -> Option<Kind>
    ensures { result ≡ narrowed_kind (rule_said rule) kind.now }
{
    match rule {
        Rule::Letters(allowed) => with_letters(allowed, kind),
        Rule::Lengths(least, most) => with_lengths(least, most, kind),
        Rule::Range(lo, hi) => with_range(lo, hi, kind),
        Rule::Present => None,
    }
}

fn put_kind(slot: &mut Slot, kind: Option<Kind>) -> bool
    ensures acts { IsTrue result ↔ IsSome (with_kind slot.old kind) }
    ensures after { slot.new ≡ unwrap_or (with_kind slot.old kind) slot.old }
{
    match kind {
        None => false,
        Some(kind) => {
            slot.kind = kind;
            true
        }
    }
}

/// Cuts down what the slot holds; answers whether the rule acts on its domain.
pub(crate) fn narrow_slot(rule: Rule, slot: &mut Slot) -> bool
    ensures acts { IsTrue result ↔ IsSome (narrowed_slot (rule_said rule) slot.old) }
    ensures after { slot.new ≡ unwrap_or (narrowed_slot (rule_said rule) slot.old) slot.old }
{
    match rule {
        Rule::Present => {
            slot.present = true;
            true
        }
        _ => {
            let kind = with_rule(rule, &slot.kind);
            put_kind(slot, kind)
        }
    }
}
