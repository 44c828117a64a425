//! The options behind a command.

ghost use Rattle.std.specs.Prelude.{◌≡◌, ◌↔◌, IfOk, IsTrue, MatchOption, option_copied};
ghost use Rattle.lf_words.specs.Command.{value_of, IsJobs, IsDash};
ghost use Rattle.lf_words.specs.Reading.{pairs, AreOptionWords, IsNoJobs, jobs_text, IsNoDash, said_dash};

use crate::command::Verb;
use crate::names::{dash_of, has_name};
use crate::numbers::number_of;
use lf_core::{OutOfMemory, Str};
use lf_limits::MOST_JOBS;
use std::alloc::Global;

/// The value that stands under the name.
fn find<'a>(words: &'a [Str], name: &str) -> Option<&'a Str>
    ensures { option_copied result ≡ value_of name.now (pairs words.now) }
{
    let mut rest = words;
    'pairs: while rest.len() >= 2 {
        if rest[0].as_str() == name {
            return Some(&rest[1]);
        }
        rest = rest.split_at(2).1;
    }
    None
}

/// Whether the words are options of the verb. It goes no deeper than the verb has options.
pub(crate) fn are_options(verb: Verb, words: &[Str]) -> bool
    ensures { IsTrue result ↔ AreOptionWords verb words.now }
{
    if words.is_empty() {
        return true;
    }
    if words.len() < 2 {
        return false;
    }
    let name = words[0].as_str();
    let rest = words.split_at(2).1;
    if !has_name(verb, name) {
        return false;
    }
    if find(rest, name).is_some() {
        return false;
    }
    are_options(verb, rest)
}

/// The text that is given under the name.
pub(crate) fn text_of(
    alloc: Global,
    options: &[Str],
    name: &str,
) -> Result<Option<Str>, OutOfMemory>
    ensures { IfOk result (λ text. text ≡ value_of name.now (pairs options.now)) }
{
    match find(options, name) {
        Some(value) => Ok(Some(Str::of(alloc, value.as_str())?)),
        None => Ok(None),
    }
}

/// How many jobs there are to be.
pub(crate) fn jobs_of(options: &[Str]) -> Option<u32>
    ensures { MatchOption result (IsNoJobs (jobs_text options.now)) (IsJobs (jobs_text options.now)) }
{
    let Some(value) = find(options, "--jobs") else {
        return Some(1);
    };
    let Some(jobs) = number_of(value.as_str(), MOST_JOBS as u64) else {
        return None;
    };
    if jobs == 0 {
        return None;
    }
    Some(jobs as u32)
}

/// Whether absence and a lone dash are to be two values.
pub(crate) fn two_of(options: &[Str]) -> Option<bool>
    ensures { MatchOption result (IsNoDash (said_dash options.now)) (IsDash (said_dash options.now)) }
{
    match find(options, "--dash") {
        Some(value) => dash_of(value.as_str()),
        None => Some(false),
    }
}
