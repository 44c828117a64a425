//! The forms of the words after a verb.

ghost use Rattle.std.specs.Prelude.{◌≡◌, IfOk};
ghost use Rattle.lf_words.specs.Command.{IsPlain, IsTranslate, IsGen, IsTail};
ghost use Rattle.lf_words.specs.Reading.{given_side, Reads};

use crate::command::{Command, Front, Side, Verb};
use crate::names::front_of;
use crate::numbers::number_of;
use crate::options::{are_options, jobs_of, text_of, two_of};
use lf_core::{OutOfMemory, Str};
use lf_limits::MOST_RECORDS;
use std::alloc::Global;

/// The side with the front and the format, narrowed by the option of this name.
fn side_of(
    alloc: Global,
    front: Front,
    format: &str,
    options: &[Str],
    name: &str,
) -> Result<Side, OutOfMemory>
    ensures { IfOk result (λ side. side ≡ given_side front format.now name.now options.now) }
{
    let format = Str::of(alloc, format)?;
    let narrow = text_of(alloc, options, name)?;
    Ok(Side {
        front,
        format,
        narrow,
    })
}

/// Words of the form FRONT FORMAT and options.
fn read_plain(alloc: Global, verb: Verb, words: &[Str]) -> Result<Option<Command>, OutOfMemory>
    ensures { IfOk result (Reads IsPlain verb words.now) }
{
    if words.len() < 2 {
        return Ok(None);
    }
    let options = words.split_at(2).1;
    let Some(front) = front_of(words[0].as_str()) else {
        return Ok(None);
    };
    if !are_options(verb, options) {
        return Ok(None);
    }
    let Some(jobs) = jobs_of(options) else {
        return Ok(None);
    };
    let Some(two) = two_of(options) else {
        return Ok(None);
    };
    let source = side_of(alloc, front, words[1].as_str(), options, "--narrow")?;
    Ok(Some(Command {
        verb,
        source,
        target: None,
        map: None,
        seed: 0,
        count: 0,
        jobs,
        two,
    }))
}

/// Words of the form FRONT FORMAT FRONT FORMAT MAP and options.
fn read_translate(alloc: Global, words: &[Str]) -> Result<Option<Command>, OutOfMemory>
    ensures { IfOk result (Reads IsTranslate Verb.Translate words.now) }
{
    if words.len() < 5 {
        return Ok(None);
    }
    let options = words.split_at(5).1;
    let Some(front) = front_of(words[0].as_str()) else {
        return Ok(None);
    };
    let Some(front_to) = front_of(words[2].as_str()) else {
        return Ok(None);
    };
    if !are_options(Verb::Translate, options) {
        return Ok(None);
    }
    let Some(jobs) = jobs_of(options) else {
        return Ok(None);
    };
    let Some(two) = two_of(options) else {
        return Ok(None);
    };
    let source = side_of(alloc, front, words[1].as_str(), options, "--narrow")?;
    let target = side_of(alloc, front_to, words[3].as_str(), options, "--narrow-to")?;
    let map = Str::of(alloc, words[4].as_str())?;
    Ok(Some(Command {
        verb: Verb::Translate,
        source,
        target: Some(target),
        map: Some(map),
        seed: 0,
        count: 0,
        jobs,
        two,
    }))
}

/// Words of the form FRONT FORMAT SEED COUNT and options.
fn read_gen(alloc: Global, words: &[Str]) -> Result<Option<Command>, OutOfMemory>
    ensures { IfOk result (Reads IsGen Verb.Gen words.now) }
{
    if words.len() < 4 {
        return Ok(None);
    }
    let options = words.split_at(4).1;
    let Some(front) = front_of(words[0].as_str()) else {
        return Ok(None);
    };
    let Some(seed) = number_of(words[2].as_str(), u64::MAX) else {
        return Ok(None);
    };
    let Some(count) = number_of(words[3].as_str(), MOST_RECORDS as u64) else {
        return Ok(None);
    };
    if !are_options(Verb::Gen, options) {
        return Ok(None);
    }
    let Some(jobs) = jobs_of(options) else {
        return Ok(None);
    };
    let Some(two) = two_of(options) else {
        return Ok(None);
    };
    let source = side_of(alloc, front, words[1].as_str(), options, "--narrow")?;
    Ok(Some(Command {
        verb: Verb::Gen,
        source,
        target: None,
        map: None,
        seed,
        count: count as u32,
        jobs,
        two,
    }))
}

/// The command whose words these are, after the word of its verb.
pub(crate) fn read_tail(
    alloc: Global,
    verb: Verb,
    words: &[Str],
) -> Result<Option<Command>, OutOfMemory>
    ensures { IfOk result (Reads (IsTail verb) verb words.now) }
{
    match verb {
        Verb::Check => read_plain(alloc, Verb::Check, words),
        Verb::Read => read_plain(alloc, Verb::Read, words),
        Verb::Write => read_plain(alloc, Verb::Write, words),
        Verb::Translate => read_translate(alloc, words),
        Verb::Show => read_plain(alloc, Verb::Show, words),
        Verb::Gen => read_gen(alloc, words),
    }
}
