//! Examples that take more than a row: all directives of Apache, failing streams, long lines and long formats.

use crate::examples::{SOUND, Seen, Streams, expect, run_bytes, run_text};
use lf_core::{Bytes, OutOfMemory, Str};
use lf_limits::{MOST_LINE_BYTES, MOST_WORD_BYTES};
use std::alloc::Global;
use std::test::Fail;
use std::thread::Threads;

/// Each directive of Apache's table.
const EACH_DIRECTIVE: &str =
    "%a%{c}h%A%H%l%L%m%R%v%V%f%u%U%r%{x}C%{x}e%{x}i%{x}n%{x}o%q%B%D%I%k%O%b%p%{canonical}p\
    %{local}p%{remote}p%P%{pid}P%{tid}P%T%{s}T%{ms}T%{us}T%s%>s%<s%X%!200,304{c}a%404X%200b";

/// What is shown of them: the name, what its values are, and how a missing one is printed.
const EACH_SLOT: &str =
    "s1 %a text dash\ns2 %{c}h text dash\ns3 %A text dash\ns4 %H text dash\ns5 %l text dash\n\
    s6 %L text dash\ns7 %m text dash\ns8 %R text dash\ns9 %v text dash\ns10 %V text dash\n\
    s11 %f text dash\ns12 %u text dash\ns13 %U text dash\ns14 %r text dash\n\
    s15 %{x}C text dash\ns16 %{x}e text dash\ns17 %{x}i text dash\ns18 %{x}n text dash\n\
    s19 %{x}o text dash\ns20 %q text no\ns21 %B number no\ns22 %D number no\n\
    s23 %I number no\ns24 %k number no\ns25 %O number no\ns26 %b number no\n\
    s27 %p number no\ns28 %{canonical}p number no\ns29 %{local}p number no\n\
    s30 %{remote}p number no\ns31 %P number no\ns32 %{pid}P number no\n\
    s33 %{tid}P number no\ns34 %T number no\ns35 %{s}T number no\ns36 %{ms}T number no\n\
    s37 %{us}T number no\ns38 %s number dash\ns39 %>s number dash\ns40 %<s number dash\n\
    s41 %X text no\ns42 %!200,304{c}a text dash\ns43 %404X text dash\n\
    s44 %200b number dash\n";

#[test]
fn each_directive_is_shown(rt: HostRuntime) -> Result<(), Fail> {
    let words = apache_words(rt.alloc(), "show", EACH_DIRECTIVE)?;
    let seen = run_bytes(&rt, rt.alloc(), &words, Bytes::new(rt.alloc()), SOUND)?;
    assert!(rt; expect(&seen, 0, EACH_SLOT, "").is_ok());
    Ok(())
}

/// The first pulls give eight bytes each, and then one fails.
fn pull_fails<R: Threads + Sync>(
    rt: &R,
    alloc: Global,
    text: &str,
    pull: u32,
    status: u8,
    out: &str,
) -> Result<(), Fail> {
    let failing = [pull];
    let streams = Streams {
        piece: 8,
        input: &failing,
        ..SOUND
    };
    let Ok(seen) = run_text(rt, alloc, "read\napache\n%h %s %B", text, streams) else {
        return Err(Fail::new("out of memory"));
    };
    match expect(&seen, status, out, "") {
        Ok(()) => Ok(()),
        Err(what) => Err(Fail::new(what)),
    }
}

#[test]
fn a_pull_fails(rt: HostRuntime) -> Result<(), Fail> {
    let first = "[\"a\",200,1]\n";
    let both = "[\"a\",200,1]\n[\"b\",200,2]\n";
    let ended = "a 200 1\nb 200 2\n";
    pull_fails(&rt, rt.alloc(), ended, 0, 4, "")?;
    pull_fails(&rt, rt.alloc(), ended, 1, 4, first)?;
    pull_fails(&rt, rt.alloc(), ended, 2, 4, both)?;
    pull_fails(&rt, rt.alloc(), ended, 3, 0, both)?;
    pull_fails(&rt, rt.alloc(), "a 200 1\nb 200 2", 2, 4, first)
}

/// A push to one of the sinks fails.
fn push_fails<R: Threads + Sync>(
    rt: &R,
    alloc: Global,
    words: &str,
    text: &str,
    streams: Streams<'_>,
    status: u8,
    out: &str,
) -> Result<(), Fail> {
    let Ok(seen) = run_text(rt, alloc, words, text, streams) else {
        return Err(Fail::new("out of memory"));
    };
    match expect(&seen, status, out, "") {
        Ok(()) => Ok(()),
        Err(what) => Err(Fail::new(what)),
    }
}

#[test]
fn a_push_to_out_fails(rt: HostRuntime) -> Result<(), Fail> {
    let rows: [(u32, &str, u8); 5] = [
        (0, "", 5),
        (1, "[\"a", 5),
        (2, "[\"a\",2", 5),
        (3, "[\"a\",200,", 5),
        (4, "[\"a\",200,1]\n", 0),
    ];
    for (push, out, status) in rows {
        let failing = [push];
        let streams = Streams {
            taken: 3,
            out: &failing,
            ..SOUND
        };
        let words = "read\napache\n%h %s %B";
        push_fails(&rt, rt.alloc(), words, "a 200 1\n", streams, status, out)?;
    }
    let streams = Streams { out: &[0], ..SOUND };
    push_fails(&rt, rt.alloc(), "show\napache\n%h", "", streams, 5, "")
}

#[test]
fn a_push_to_err_fails(rt: HostRuntime) -> Result<(), Fail> {
    let streams = Streams { err: &[0], ..SOUND };
    let words = "read\napache\n%h %s %B";
    let out = "[\"a\",200,1]\n";
    push_fails(&rt, rt.alloc(), words, "a 200 1\n\n", streams, 5, out)?;
    push_fails(&rt, rt.alloc(), "write", "", streams, 5, "")
}

/// A line of `MOST_LINE_BYTES` letters, one of one letter more, and one that is short.
fn long_text(alloc: Global) -> Result<Bytes, OutOfMemory> {
    let mut bytes = Bytes::new(alloc);
    for _k in 0..MOST_LINE_BYTES {
        bytes.push(b'a')?;
    }
    bytes.push(b'\n')?;
    for _k in 0..MOST_LINE_BYTES {
        bytes.push(b'a')?;
    }
    bytes.extend(b"a\n\n")?;
    Ok(bytes)
}

/// The words of a command line about one Apache format.
fn apache_words(alloc: Global, verb: &str, format: &str) -> Result<Vec<Str>, OutOfMemory> {
    let mut words = Vec::new(alloc);
    words.push(Str::of(alloc, verb)?)?;
    words.push(Str::of(alloc, "apache")?)?;
    words.push(Str::of(alloc, format)?)?;
    Ok(words)
}

#[test]
fn long_lines(rt: HostRuntime) -> Result<(), Fail> {
    let bytes = long_text(rt.alloc())?;
    let streams = Streams {
        piece: 100_000,
        taken: 1_000_000,
        ..SOUND
    };
    let words = apache_words(rt.alloc(), "read", "%h")?;
    let seen = run_bytes(&rt, rt.alloc(), &words, bytes, streams)?;
    assert_eq!(rt; seen.out.len(), MOST_LINE_BYTES + 5);
    assert_eq!(rt; seen.err.as_slice(), b"long 2\nunread 3\n".as_slice());
    assert_eq!(rt; seen.status, 3);
    Ok(())
}

#[test]
fn long_lines_of_json(rt: HostRuntime) -> Result<(), Fail> {
    let bytes = long_text(rt.alloc())?;
    let words = apache_words(rt.alloc(), "write", "%h")?;
    let seen = run_bytes(&rt, rt.alloc(), &words, bytes, SOUND)?;
    let err = "bad 1 NotJson\nlong 2\nbad 3 NotJson\n";
    assert!(rt; expect(&seen, 3, "", err).is_ok());
    Ok(())
}

/// What the verb answers for a format of so many letters.
fn letters_format<R: Threads + Sync>(
    rt: &R,
    alloc: Global,
    verb: &str,
    count: usize,
) -> Result<Seen, OutOfMemory> {
    let mut letters = Bytes::new(alloc);
    for _k in 0..count {
        letters.push(b'a')?;
    }
    let Ok(format) = str::from_utf8(letters.as_slice()) else {
        return Err(OutOfMemory);
    };
    let words = apache_words(alloc, verb, format)?;
    run_bytes(rt, alloc, &words, Bytes::new(alloc), SOUND)
}

#[test]
fn formats_of_many_letters(rt: HostRuntime) -> Result<(), Fail> {
    let seen = letters_format(&rt, rt.alloc(), "show", MOST_WORD_BYTES)?;
    assert!(rt; expect(&seen, 0, "", "").is_ok());
    let seen = letters_format(&rt, rt.alloc(), "show", MOST_WORD_BYTES + 1)?;
    assert!(rt; expect(&seen, 2, "", "logfmt: bad command line\n").is_ok());
    Ok(())
}

#[test]
fn formats_at_the_limit_of_the_size(rt: HostRuntime) -> Result<(), Fail> {
    let seen = letters_format(&rt, rt.alloc(), "check", 8190)?;
    assert!(rt; expect(&seen, 0, "readable 0\n", "").is_ok());
    let seen = letters_format(&rt, rt.alloc(), "check", 8191)?;
    assert!(rt; expect(&seen, 7, "", "logfmt: size 8193 over 8192\n").is_ok());
    Ok(())
}

/// What `show` answers for a format that is narrowed by a text of so many letters.
fn letters_narrowing<R: Threads + Sync>(
    rt: &R,
    alloc: Global,
    count: usize,
) -> Result<Seen, OutOfMemory> {
    let mut letters = Bytes::new(alloc);
    letters.extend(b"s1:not ")?;
    for _k in 7..count {
        letters.push(b'a')?;
    }
    let Ok(text) = str::from_utf8(letters.as_slice()) else {
        return Err(OutOfMemory);
    };
    let mut words = apache_words(alloc, "show", "%h")?;
    words.push(Str::of(alloc, "--narrow")?)?;
    words.push(Str::of(alloc, text)?)?;
    run_bytes(rt, alloc, &words, Bytes::new(alloc), SOUND)
}

#[test]
fn narrowings_of_many_letters(rt: HostRuntime) -> Result<(), Fail> {
    let seen = letters_narrowing(&rt, rt.alloc(), MOST_WORD_BYTES)?;
    assert!(rt; expect(&seen, 0, "s1 %h text dash\n", "").is_ok());
    let seen = letters_narrowing(&rt, rt.alloc(), MOST_WORD_BYTES + 1)?;
    assert!(rt; expect(&seen, 2, "", "logfmt: bad command line\n").is_ok());
    Ok(())
}

#[test]
fn a_line_feed_in_a_format(rt: HostRuntime) -> Result<(), Fail> {
    let words = apache_words(rt.alloc(), "check", "%s\n")?;
    let seen = run_bytes(&rt, rt.alloc(), &words, Bytes::new(rt.alloc()), SOUND)?;
    let err = "logfmt: source format: LineBreak at 2\n";
    assert!(rt; expect(&seen, 2, "", err).is_ok());
    Ok(())
}
