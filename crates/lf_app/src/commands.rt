//! What a command line asks for, or why it is refused.

ghost use Rattle.std.specs.Prelude.{◌≡◌, ◌≤◌, length, false, IfOk};
ghost use Rattle.lf_format.specs.Keeps.{slots_in};
ghost use Rattle.lf_limits.specs.Limits.{most_text_bytes};
ghost use Rattle.lf_map.specs.Filling.{IsMapOf};
ghost use Rattle.lf_words.specs.Command.{HasTarget};
ghost use Rattle.lf_words.specs.declared.command.Verb.TheVariants as verbs;
ghost use Rattle.lf_app.specs.declared.commands.Command.TheVariants as commands;
ghost use Rattle.lf_app.specs.declared.commands.Job.TheVariants as jobs;
ghost use Rattle.lf_app.specs.declared.commands.WhichSide.TheVariants as which;
ghost use Rattle.lf_app.specs.Sides.{IsShort};
ghost use Rattle.lf_app.specs.Commands.{confused_command, IsRefusedFor, IfAccepted, BySide, AsksOf, IsMapRefused, AsksToMap, AsksToTranslate, IsTranslation, AsksFor, CanAsk, IsCommand};
ghost use Rattle.lf_app.specs.Verdicts.{format_of, has_notes};

use crate::sides::{SideFault, read_side};
use lf_compile::{CompileRefused, Confusion, Reader, Refused, compile};
use lf_core::{OutOfMemory, Record, Str};
use lf_format::Format;
use lf_map::{FieldMap, MapFault, parse_map};
use lf_narrow::NarrowFault;
use lf_spelling::Cause;
use lf_translate::Translation;
use lf_words::laws::{format_is_a_word, narrowing_is_a_word, translation_has_a_target};
use lf_words::{Command as CommandLine, Side, Verb, WordFault, read_words};
use std::alloc::Global;

/// What is done with the lines of a stream: they are read as a format's lines, or written from records in JSON, or turned
/// into lines of another format.
#[derive(Drop)]
pub enum Job {
    /// Lines are read, and their records written as JSON.
    Read(Reader),
    /// Records in JSON are read, and their lines written.
    Write(Format),
    /// Lines are read, and lines of another format written.
    Translate(Translation),
}

impl Job {
    /// The format of what is found.
    pub fn format(&self) -> &Format
        ensures { result.now ≡ format_of self.now }
    {
        match self {
            Job::Read(reader) => reader.format(),
            Job::Write(format) => format,
            Job::Translate(translation) => translation.target(),
        }
    }

    /// Whether the stream may have notes. Lines of JSON have none.
    pub fn has_notes(&self) -> bool
        ensures { result ≡ has_notes self.now }
    {
        match self {
            Job::Read(reader) => reader.format().notes(),
            Job::Write(_) => false,
            Job::Translate(translation) => translation.source().notes(),
        }
    }
}

/// Which side of a command line is meant.
#[derive(Clone, Copy, Debug, PartialEq, Eq)]
pub enum WhichSide {
    Source,
    Target,
}

/// Why a command line is refused.
#[derive(Drop)]
pub enum Refusal {
    /// The words are no command line.
    BadWords,
    /// The first fault of the side's text, with its place in bytes from 0.
    BadFormat(WhichSide, u32, Cause),
    /// The first fault of the side's narrowing.
    BadNarrowing(WhichSide, NarrowFault),
    /// The first fault of the map.
    BadMap(MapFault),
    /// The size of the format, which is over `MOST_SIZE`.
    TooLarge(u64),
    /// The least record whose line would be a note.
    NoteLine(Record),
    /// What shows that the format, which the verb reads lines by, is not readable.
    Confused(Confusion),
}

/// What a command line asks for: to work on lines, to say that a format of so many slots is readable or to show that
/// it isn't, to show its slots, to draw records of it from a seed and so many, or what is refused.
#[derive(Drop)]
pub enum Command {
    Lines(Job),
    Readable(u32),
    Witness(Confusion),
    Show(Format),
    Generate(Reader, u64, u32),
    Refuse(Refusal),
}

/// What a format is asked for by a verb that has no target; records are generated from a seed, and so many.
#[derive(Clone, Copy, Debug, PartialEq, Eq)]
pub enum Purpose {
    Check,
    Read,
    Write,
    Show,
    Generate(u64, u32),
}

/// What is asked for by a format that isn't readable.
fn confused(verb: Verb, confusion: Confusion) -> Command
    ensures { result ≡ confused_command verb confusion }
{
    match verb {
        Verb::Check => Command::Witness(confusion),
        Verb::Read | Verb::Write | Verb::Show | Verb::Translate | Verb::Gen => {
            Command::Refuse(Refusal::Confused(confusion))
        }
    }
}

/// What is asked for by a format that isn't accepted.
fn refused(verb: Verb, cause: Refused) -> Result<Command, OutOfMemory>
    ensures { IfOk result (λ command. IsRefusedFor verb cause command) }
{
    match cause {
        Refused::TooLarge(size) => Ok(Command::Refuse(Refusal::TooLarge(size))),
        Refused::Hash(record) => Ok(Command::Refuse(Refusal::NoteLine(record))),
        Refused::Ambiguous(confusion) => Ok(confused(verb, confusion)),
        Refused::OutOfMemory => Err(OutOfMemory),
    }
}

/// What `check` asks for by a format.
fn ask_check(alloc: Global, format: Format) -> Result<Command, OutOfMemory>
    ensures { IfOk result (IfAccepted verbs.Check format (commands.Readable (length (slots_in format.pieces)))) }
{
    match compile(alloc, format) {
        Ok(reader) => Ok(Command::Readable(reader.format().slots())),
        Err(CompileRefused { format: _, cause }) => refused(Verb::Check, cause),
    }
}

/// What `read` asks for by a format.
fn ask_read(alloc: Global, format: Format) -> Result<Command, OutOfMemory>
    ensures { IfOk result (IfAccepted verbs.Read format (commands.Lines (jobs.Read format))) }
{
    match compile(alloc, format) {
        Ok(reader) => Ok(Command::Lines(Job::Read(reader))),
        Err(CompileRefused { format: _, cause }) => refused(Verb::Read, cause),
    }
}

/// What `gen` asks for by a format.
fn ask_generate(
    alloc: Global,
    seed: u64,
    count: u32,
    format: Format,
) -> Result<Command, OutOfMemory>
    ensures { IfOk result (IfAccepted verbs.Gen format (commands.Generate format seed count)) }
{
    match compile(alloc, format) {
        Ok(reader) => Ok(Command::Generate(reader, seed, count)),
        Err(CompileRefused { format: _, cause }) => refused(Verb::Gen, cause),
    }
}

/// What is asked for by a format for this purpose.
fn ask(alloc: Global, purpose: Purpose, format: Format) -> Result<Command, OutOfMemory>
    ensures { IfOk result (AsksOf purpose format) }
{
    match purpose {
        Purpose::Check => ask_check(alloc, format),
        Purpose::Read => ask_read(alloc, format),
        Purpose::Write => Ok(Command::Lines(Job::Write(format))),
        Purpose::Show => Ok(Command::Show(format)),
        Purpose::Generate(seed, count) => ask_generate(alloc, seed, count, format),
    }
}

/// What is asked for by a source for this purpose.
fn read_source(
    alloc: Global,
    purpose: Purpose,
    two: bool,
    source: &Side,
) -> Result<Command, OutOfMemory>
    requires { IsShort source.now }
    ensures { IfOk result (BySide which.Source two source.now (AsksOf purpose)) }
{
    match read_side(alloc, WhichSide::Source, two, source) {
        Ok(format) => ask(alloc, purpose, format),
        Err(SideFault::Refused(refusal)) => Ok(Command::Refuse(refusal)),
        Err(SideFault::OutOfMemory) => Err(OutOfMemory),
    }
}

/// What a translation asks for by a source and a map that is from it to the target.
fn ask_translate(
    alloc: Global,
    source: Format,
    target: Format,
    text: Str,
    map: FieldMap,
) -> Result<Command, OutOfMemory>
    requires { IsMapOf text source target map }
    ensures { IfOk result (IfAccepted verbs.Translate source (commands.Lines (jobs.Translate (record { source = source; target = target; map = text })))) }
{
    match compile(alloc, source) {
        Ok(reader) => {
            let translation = Translation::new(reader, target, text, map);
            Ok(Command::Lines(Job::Translate(translation)))
        }
        Err(CompileRefused { format: _, cause }) => refused(Verb::Translate, cause),
    }
}

/// What is asked for by a map that has a fault.
fn map_refused(fault: MapFault) -> Result<Command, OutOfMemory>
    ensures { IfOk result (IsMapRefused fault) }
{
    match fault {
        MapFault::OutOfMemory => Err(OutOfMemory),
        MapFault::Syntax(_)
        | MapFault::NoSlot(_)
        | MapFault::Twice(_)
        | MapFault::Untyped(_)
        | MapFault::Unfilled(_) => Ok(Command::Refuse(Refusal::BadMap(fault))),
    }
}

/// What a translation asks for by its formats and the text of its map.
fn read_map(
    alloc: Global,
    source: Format,
    target: Format,
    text: &Str,
) -> Result<Command, OutOfMemory>
    requires { length text.now ≤ most_text_bytes }
    ensures { IfOk result (AsksToMap (record { source = source; target = target; map = text.now })) }
{
    match parse_map(alloc, text.as_str(), &source, &target) {
        Ok(map) => {
            let copy = text.copy()?;
            ask_translate(alloc, source, target, copy, map)
        }
        Err(fault) => map_refused(fault),
    }
}

/// What a translation asks for by the format of its source, its target and the text of its map.
fn read_target(
    alloc: Global,
    source: Format,
    target: &Side,
    text: &Str,
) -> Result<Command, OutOfMemory>
    requires target { IsShort target.now }
    requires text { length text.now ≤ most_text_bytes }
    ensures { IfOk result (BySide which.Target false target.now (λ to. AsksToMap (record { source = source; target = to; map = text.now }))) }
{
    match read_side(alloc, WhichSide::Target, false, target) {
        Ok(format) => read_map(alloc, source, format, text),
        Err(SideFault::Refused(refusal)) => Ok(Command::Refuse(refusal)),
        Err(SideFault::OutOfMemory) => Err(OutOfMemory),
    }
}

/// What a translation asks for by its sides and the text of its map.
fn read_sides(
    alloc: Global,
    two: bool,
    source: &Side,
    target: &Side,
    text: &Str,
) -> Result<Command, OutOfMemory>
    requires source { IsShort source.now }
    requires target { IsShort target.now }
    requires text { length text.now ≤ most_text_bytes }
    ensures { IfOk result (AsksToTranslate two source.now target.now text.now) }
{
    match read_side(alloc, WhichSide::Source, two, source) {
        Ok(format) => read_target(alloc, format, target, text),
        Err(SideFault::Refused(refusal)) => Ok(Command::Refuse(refusal)),
        Err(SideFault::OutOfMemory) => Err(OutOfMemory),
    }
}

/// What the command line of a translation asks for.
fn read_translation(alloc: Global, line: &CommandLine) -> Result<Command, OutOfMemory>
    requires source { IsShort line.now.source }
    requires target { HasTarget line.now }
    ensures { IfOk result (IsTranslation line.now) }
{
    let Some(target) = &line.target else {
        unreachable!();
    };
    let Some(text) = &line.map else {
        unreachable!();
    };
    read_sides(alloc, line.two, &line.source, target, text)
}

/// What a command line asks for.
fn read_line(alloc: Global, line: &CommandLine) -> Result<Command, OutOfMemory>
    requires { CanAsk line.now }
    ensures { IfOk result (AsksFor line.now) }
{
    match line.verb {
        Verb::Check => read_source(alloc, Purpose::Check, line.two, &line.source),
        Verb::Read => read_source(alloc, Purpose::Read, line.two, &line.source),
        Verb::Write => read_source(alloc, Purpose::Write, line.two, &line.source),
        Verb::Show => read_source(alloc, Purpose::Show, line.two, &line.source),
        Verb::Translate => read_translation(alloc, line),
        Verb::Gen => {
            read_source(
                alloc,
                Purpose::Generate(line.seed, line.count),
                line.two,
                &line.source,
            )
        }
    }
}

/// What the words ask for.
pub fn read_command(alloc: Global, words: &[Str]) -> Result<Command, OutOfMemory>
    ensures { IfOk result (IsCommand words.now) }
{
    format_is_a_word();
    narrowing_is_a_word();
    translation_has_a_target();
    match read_words(alloc, words) {
        Ok(line) => read_line(alloc, &line),
        Err(WordFault::Bad) => Ok(Command::Refuse(Refusal::BadWords)),
        Err(WordFault::OutOfMemory) => Err(OutOfMemory),
    }
}
