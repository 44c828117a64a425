//! Lists of words, and the commands that they are.

use lf_app::{Gate, IdleGate, Status};
use lf_core::{OutOfMemory, Str};
use lf_words::{Command, Side, WordFault, read_words};
use std::alloc::{AllocError, Global};
use std::test::Fail;

/// The words of a line, which bars part.
fn words_of(alloc: Global, line: &str) -> Result<Vec<Str>, OutOfMemory> {
    let mut words = Vec::new(alloc);
    for word in line.split('|') {
        words.push(Str::of(alloc, word)?)?;
    }
    Ok(words)
}

fn or_none(text: &Option<Str>) -> &str {
    match text {
        Some(text) => text.as_str(),
        None => "none",
    }
}

fn side_text(alloc: Global, side: &Side) -> Result<String, AllocError> {
    let front = side.front;
    let format = side.format.as_str();
    let narrow = or_none(&side.narrow);
    format!(in alloc; "{front:?}|{format}|{narrow}")
}

fn target_text(alloc: Global, target: &Option<Side>) -> Result<String, AllocError> {
    match target {
        Some(side) => side_text(alloc, side),
        None => String::from_str(alloc, "none"),
    }
}

/// All that a command says, with bars between.
fn command_text(alloc: Global, command: &Command) -> Result<String, AllocError> {
    let verb = command.verb;
    let source = side_text(alloc, &command.source)?;
    let target = target_text(alloc, &command.target)?;
    let map = or_none(&command.map);
    let seed = command.seed;
    let count = command.count;
    let jobs = command.jobs;
    let dash = if command.two { "two" } else { "one" };
    format!(in alloc; "{verb:?}|{source}|{target}|{map}|{seed}|{count}|{jobs}|{dash}")
}

fn is_bad(answer: &Result<Command, WordFault>) -> bool {
    matches!(answer, Err(WordFault::Bad))
}

#[test]
fn commands(rt: HostRuntime) -> Result<(), Fail> {
    let rows = [
        (
            "check|apache|%h",
            "Check|Apache|%h|none|none|none|0|0|1|one",
        ),
        (
            "check|nginx|$a|--narrow|s1:present",
            "Check|Nginx|$a|s1:present|none|none|0|0|1|one",
        ),
        (
            "check|apache|--narrow",
            "Check|Apache|--narrow|none|none|none|0|0|1|one",
        ),
        (
            "check|apache|--jobs|--narrow|--jobs",
            "Check|Apache|--jobs|--jobs|none|none|0|0|1|one",
        ),
        (
            "read|nginx-json|$a",
            "Read|NginxJson|$a|none|none|none|0|0|1|one",
        ),
        (
            "read|nginx-none|$a|--narrow||--jobs|64",
            "Read|NginxNone|$a||none|none|0|0|64|one",
        ),
        (
            "read|nginx-directive|x|--jobs|2|--narrow|--narrow",
            "Read|NginxDirective|x|--narrow|none|none|0|0|2|one",
        ),
        (
            "write|haproxy|%r|--narrow|n",
            "Write|Haproxy|%r|n|none|none|0|0|1|one",
        ),
        (
            "translate|envoy|%A%|w3c|date|s1=s1",
            "Translate|Envoy|%A%|none|W3c|date|none|s1=s1|0|0|1|one",
        ),
        (
            "translate|iis|time|apache|--jobs|--narrow|--narrow-to|to|--jobs|3|--narrow|from",
            "Translate|Iis|time|from|Apache|--jobs|to|--narrow|0|0|3|one",
        ),
        (
            "show|w3c|time|--narrow|*:not +",
            "Show|W3c|time|*:not +|none|none|0|0|1|one",
        ),
        (
            "gen|apache|%X|0|0",
            "Gen|Apache|%X|none|none|none|0|0|1|one",
        ),
        (
            "check|apache|%h|--dash|two",
            "Check|Apache|%h|none|none|none|0|0|1|two",
        ),
        (
            "check|apache|--dash|--dash|one",
            "Check|Apache|--dash|none|none|none|0|0|1|one",
        ),
        (
            "read|apache|%h|--jobs|2|--dash|two|--narrow|--dash",
            "Read|Apache|%h|--dash|none|none|0|0|2|two",
        ),
        (
            "write|apache|%h|--dash|one|--narrow|n",
            "Write|Apache|%h|n|none|none|0|0|1|one",
        ),
        (
            "translate|iis|time|apache|%h|s1=s1|--dash|two|--narrow-to|to",
            "Translate|Iis|time|none|Apache|%h|to|s1=s1|0|0|1|two",
        ),
        (
            "show|w3c|time|--dash|two",
            "Show|W3c|time|none|none|none|0|0|1|two",
        ),
        (
            "gen|apache|%X|0|0|--dash|two",
            "Gen|Apache|%X|none|none|none|0|0|1|two",
        ),
        (
            "gen|apache|%X|18446744073709551615|1000000|--jobs|64|--narrow|n",
            "Gen|Apache|%X|n|none|none|18446744073709551615|1000000|64|one",
        ),
    ];
    for (line, wanted) in rows {
        let words = words_of(rt.alloc(), line)?;
        let command = read_words(rt.alloc(), words.as_slice())?;
        let told = command_text(rt.alloc(), &command)?;
        assert_eq!(rt; told.as_str(), wanted, "at {line}");
    }
    Ok(())
}

#[test]
fn bad_lines(rt: HostRuntime) -> Result<(), Fail> {
    let rows = [
        "",
        "check",
        "read|apache",
        "list|apache|%h",
        "Check|apache|%h",
        "check|lighttpd|%h",
        "check||%h",
        "check|apache|%h|more",
        "check|apache|%h|--narrow",
        "check|apache|%h|--narrow|a|--narrow|b",
        "check|apache|%h|--jobs|1",
        "check|apache|%h|--narrow=a",
        "check|--narrow|a|apache|%h",
        "write|apache|%h|--jobs|1",
        "show|apache|%h|--jobs|1",
        "read|apache|%h|--narrow-to|a",
        "gen|apache|%h|1|1|--narrow-to|a",
        "read|apache|%h|--jobs",
        "read|apache|%h|--jobs|",
        "read|apache|%h|--jobs|0",
        "read|apache|%h|--jobs|65",
        "read|apache|%h|--jobs|01",
        "read|apache|%h|--jobs|+1",
        "read|apache|%h|--jobs|-1",
        "read|apache|%h|--jobs| 1",
        "read|apache|%h|--jobs|1.0",
        "read|apache|%h|--jobs|2|--jobs|2",
        "check|apache|%h|--dash",
        "check|apache|%h|--dash|",
        "check|apache|%h|--dash|three",
        "check|apache|%h|--dash|Two",
        "check|apache|%h|--dash|two ",
        "check|apache|%h|--dash|2",
        "check|apache|%h|--dash|two|--dash|two",
        "check|apache|%h|--dash|one|--dash|two",
        "check|apache|%h|--dash=two",
        "gen|apache|%h|1",
        "gen|apache|%h|1|1000001",
        "gen|apache|%h|1|00",
        "gen|apache|%h|18446744073709551616|1",
        "gen|apache|%h|01|1",
        "gen|apache|%h|--jobs|1",
        "translate|apache|%h|apache|%h",
        "translate|apache|%h|lighttpd|%h|s1=s1",
    ];
    for line in rows {
        let words = words_of(rt.alloc(), line)?;
        assert!(rt;
            is_bad(&read_words(rt.alloc(), words.as_slice())),
            "at {line}"
        );
    }
    let none = Vec::new(rt.alloc());
    assert!(rt; is_bad(&read_words(rt.alloc(), none.as_slice())));
    Ok(())
}

#[test]
fn long_words(rt: HostRuntime) -> Result<(), Fail> {
    let mut format = String::new(rt.alloc());
    for _ in 0..1_048_576u32 {
        format.push('a')?;
    }
    let mut words = words_of(rt.alloc(), "show|apache")?;
    words.push(Str::of(rt.alloc(), format.as_str())?)?;
    read_words(rt.alloc(), words.as_slice())?;
    format.push('a')?;
    let mut longer = words_of(rt.alloc(), "show|apache")?;
    longer.push(Str::of(rt.alloc(), format.as_str())?)?;
    assert!(rt; is_bad(&read_words(rt.alloc(), longer.as_slice())));
    Ok(())
}

fn shared<T: Send + Sync>(_value: &T) {}

#[test]
fn shared_and_told(rt: HostRuntime) -> Result<(), Fail> {
    let words = words_of(rt.alloc(), "translate|iis|time|w3c|time|s1=s1")?;
    let command = read_words(rt.alloc(), words.as_slice())?;
    shared(&command);
    shared(&command.source);
    shared(&command.source.front);
    shared(&command.verb);
    shared(&WordFault::Bad);
    let told = format!(in rt.alloc(); "{}, {}", WordFault::Bad, WordFault::OutOfMemory)?;
    assert_eq!(rt; told.as_str(), "bad command line, out of memory");
    Ok(())
}

#[test]
fn types_of_a_run_are_shared(_rt: HostRuntime) -> Result<(), Fail> {
    IdleGate.pass(0);
    shared(&IdleGate);
    shared(&Status(0));
    Ok(())
}
