//! What a text says that is a term.

ghost use Rattle.std.specs.Prelude.{◌≡◌, ℕ, ◌-◌, ◌<◌, ◌≤◌, ◌^◌, drop, take, length};
ghost use Rattle.lf_narrow.specs.Terms.{number_of, int_of, upper_of, lengths_of, range_of, rule_by, rule_of, slot_of, term_of};
ghost use Rattle.lf_syntax.specs.Cuts.{front_of, from_first};
ghost use Rattle.lf_narrow.specs.Fits.{IsInt, IsUpper, FitsRule, FitsTerm};
ghost use Rattle.lf_narrow.specs.Said.{SaysRule};

use crate::rules::Rule;
use crate::sets::{outside, set_of};

/// Where the first such byte is, or the text's length.
fn end_of(byte: u8, text: &[u8]) -> usize
    ensures within { result ≤ length text.now }
    ensures front { take result text.now ≡ front_of byte text.now }
    ensures rest { drop result text.now ≡ from_first byte text.now }
{
    for (i, one) in text.iter().enumerate() {
        if *one == byte {
            return i;
        }
    }
    text.len()
}

/// The text cut before the first such byte.
pub(crate) fn cut_before(byte: u8, text: &[u8]) -> (&[u8], &[u8])
    ensures front { result.0.now ≡ front_of byte text.now }
    ensures rest { result.1.now ≡ from_first byte text.now }
{
    text.split_at(end_of(byte, text))
}

/// The text after its first bytes.
pub(crate) fn past(count: usize, text: &[u8]) -> &[u8]
    ensures { result.now ≡ drop count text.now }
{
    if count <= text.len() {
        return text.split_at(count).1;
    }
    text.split_at(text.len()).1
}

/// The number in decimal.
fn number(text: &[u8]) -> u64
    requires { number_of text.now < 2 ^ 64 }
    ensures { result ≡ number_of text.now }
{
    let mut value = 0;
    for digit in text {
        value = 10 * value + digit.saturating_sub(48) as u64;
    }
    value
}

/// The number in decimal, with its sign.
fn int(text: &[u8]) -> i64
    requires { IsInt (int_of text.now) }
    ensures { result ≡ int_of text.now }
{
    let Some((first, rest)) = text.split_first() else {
        return 0;
    };
    if *first == b'-' {
        return -1 - (number(rest).saturating_sub(1) as i64);
    }
    number(text) as i64
}

fn upper(text: &[u8]) -> Option<u32>
    requires { IsUpper (upper_of text.now) }
    ensures { result ≡ upper_of text.now }
{
    if text.is_empty() {
        return None;
    }
    Some(number(text) as u32)
}

fn lengths(text: &[u8]) -> Rule
    requires { FitsRule (lengths_of text.now) }
    ensures { SaysRule result (lengths_of text.now) }
{
    let (least, rest) = cut_before(b'.', text);
    let most = upper(past(2, rest));
    Rule::Lengths(number(least) as u32, most)
}

fn range(text: &[u8]) -> Rule
    requires { FitsRule (range_of text.now) }
    ensures { SaysRule result (range_of text.now) }
{
    let (lo, rest) = cut_before(b'.', text);
    let hi = int(past(2, rest));
    Rule::Range(int(lo), hi)
}

/// The rule that begins with the letter.
fn rule_by(letter: u8, text: &[u8]) -> Rule
    requires { FitsRule (rule_by letter text.now) }
    ensures { SaysRule result (rule_by letter text.now) }
{
    match letter {
        b'n' => Rule::Letters(outside(set_of(past(4, text)))),
        b'o' => Rule::Letters(set_of(past(5, text))),
        b'l' => lengths(past(4, text)),
        b'r' => range(past(6, text)),
        _ => Rule::Present,
    }
}

fn rule(text: &[u8]) -> Rule
    requires { FitsRule (rule_of text.now) }
    ensures { SaysRule result (rule_of text.now) }
{
    match text.split_first() {
        None => Rule::Present,
        Some((first, _rest)) => rule_by(*first, text),
    }
}

/// The slot that the term names.
fn slot(text: &[u8]) -> Option<u32>
    requires { IsUpper (slot_of text.now) }
    ensures { result ≡ slot_of text.now }
{
    let Some((first, rest)) = text.split_first() else {
        return None;
    };
    if *first == b'*' {
        return None;
    }
    let (digits, _rest) = cut_before(b':', rest);
    Some(number(digits) as u32)
}

/// A rule for the slot of the number, or for all slots on which it acts.
#[derive(Clone, Copy)]
pub(crate) struct Term {
    pub(crate) slot: Option<u32>,
    pub(crate) rule: Rule,
}

/// What a text says that is a term.
pub(crate) fn read_term(text: &[u8]) -> Term
    requires { FitsTerm (term_of text.now) }
    ensures slot { result.slot ≡ slot_of text.now }
    ensures rule { SaysRule result.rule (term_of text.now).rule }
{
    let (_front, rest) = cut_before(b':', text);
    Term {
        slot: slot(text),
        rule: rule(past(1, rest)),
    }
}
