//! What begins with a percent sign, taken apart from the left.

ghost use Rattle.std.specs.Prelude.{◌≡◌, ◌∷◌, Some, MatchResult};
ghost use Rattle.std.specs.List.{prefix_len};
ghost use Rattle.std.specs.Option.{option_copied};
ghost use Rattle.lf_spelling.specs.Cuts.{EndsText};
ghost use Rattle.lf_spelling.specs.Texts.{is_digit};
ghost use Rattle.envoy_front.specs.Command.{is_upper as is_upper_byte, name_of, after_name, length_of, after_length, tail_cause, IsTail};
ghost use Rattle.envoy_front.specs.Reading.{on_percent, on_command, Gives};

use crate::table::{Sort, absent, can_take, can_take_length, find_sort, kind_of};
use lf_format::{Coding, Slot};
use lf_spelling::{Cause, Cut, Given, ItemFault, Taken, cut_part, spelled};
use std::alloc::Global;

/// What follows a percent sign.
pub fn percent(alloc: Global, after: &[u8]) -> Result<Taken, ItemFault>
    requires { EndsText (37 ∷ after.now) }
    ensures { Gives (on_percent after.now) (37 ∷ after.now) result }
{
    if let Some((second, _rest)) = after.split_first()
        && *second == b'%'
    {
        return Ok(Taken {
            given: Given::Byte(b'%'),
            len: 2,
        });
    }
    command(alloc, after)
}

fn is_upper(b: u8) -> bool
    ensures { result ≡ is_upper_byte b }
{
    b.is_ascii_uppercase() || b.is_ascii_digit() || b == b'_'
}

fn name_len(text: &[u8]) -> usize
    ensures { result ≡ prefix_len is_upper_byte text.now }
{
    text.iter().take_while(|b| is_upper(**b)).count()
}

fn digits_len(text: &[u8]) -> usize
    ensures { result ≡ prefix_len is_digit text.now }
{
    text.iter().take_while(|b| b.is_ascii_digit()).count()
}

/// The longest run of upper-case letters, digits and `_`, and what follows it.
#[tactic(auto, using(lf_spelling::specs::RunLaws::run_fits, lf_spelling::specs::RunLaws::run_front, lf_spelling::specs::RunLaws::run_back))]
fn cut_name(text: &[u8]) -> (&[u8], &[u8])
    ensures front { result.0.now ≡ name_of text.now }
    ensures back { result.1.now ≡ after_name text.now }
{
    text.split_at(name_len(text))
}

/// The digits of the length at the start, or none, and what follows them.
#[tactic(auto, using(lf_spelling::specs::RunLaws::run_fits, lf_spelling::specs::RunLaws::run_front, lf_spelling::specs::RunLaws::run_back))]
fn cut_length(rest: &[u8]) -> Cut<'_>
    ensures digits { option_copied result.part ≡ length_of rest.now }
    ensures after { result.rest.now ≡ after_length rest.now }
{
    let Some((first, after)) = rest.split_first() else {
        return Cut { part: None, rest };
    };
    if *first != b':' {
        return Cut { part: None, rest };
    }
    let (digits, after) = after.split_at(digits_len(after));
    Cut {
        part: Some(digits),
        rest: after,
    }
}

/// What follows the name of a command, and what follows the command.
#[derive(Clone, Copy)]
struct Tail<'a> {
    argument: Option<&'a [u8]>,
    digits: Option<&'a [u8]>,
    after: &'a [u8],
}

/// The parts of a command after its name, or what is wrong with them.
fn read_tail(sort: Sort, tail: &[u8]) -> Result<Tail<'_>, Cause>
    ensures { MatchResult result (λ parts. IsTail sort tail.now (option_copied parts.argument) (option_copied parts.digits) parts.after.now) (λ cause. tail_cause sort tail.now ≡ Some cause) }
{
    let Some(cut) = cut_part(tail, b'(', b')') else {
        return Err(Cause::Unclosed);
    };
    if !can_take(sort, cut.part) {
        return Err(Cause::BadName);
    }
    let length = cut_length(cut.rest);
    if !can_take_length(sort, length.part) {
        return Err(Cause::BadLength);
    }
    let Some((end, after)) = length.rest.split_first() else {
        return Err(Cause::Unclosed);
    };
    if *end != b'%' {
        return Err(Cause::Unclosed);
    }
    Ok(Tail {
        argument: cut.part,
        digits: length.part,
        after,
    })
}

/// A command, by what follows its percent sign.
fn command(alloc: Global, text: &[u8]) -> Result<Taken, ItemFault>
    requires { EndsText (37 ∷ text.now) }
    ensures { Gives (on_command text.now) (37 ∷ text.now) result }
{
    let (name, tail) = cut_name(text);
    let Some(sort) = find_sort(name) else {
        return Err(ItemFault::Fault(Cause::UnknownName));
    };
    let parts = match read_tail(sort, tail) {
        Ok(parts) => parts,
        Err(cause) => return Err(ItemFault::Fault(cause)),
    };
    let len = text.len() - parts.after.len();
    let name = spelled(alloc, "%", text.split_at(len).0)?;
    let slot = Slot {
        name,
        kind: kind_of(sort, parts.argument, parts.digits),
        code: Coding::Raw,
        absent: absent(sort),
        present: false,
        quoted: false,
    };
    Ok(Taken {
        given: Given::Slot(slot),
        len: 1 + len,
    })
}
