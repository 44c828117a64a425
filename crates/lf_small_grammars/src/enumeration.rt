//! Each text of up to six letters beside a list of sentences.
ghost use Rattle.std.specs.Prelude.{◌≡◌, true, IfOk};
ghost use Rattle.lf_syntax.specs.Shape.{grammar};
ghost use Rattle.lf_small_grammars.specs.Tiny.{runs, words, joined_parts, part, nests, nest_rule};
ghost use Rattle.lf_syntax.specs.Grammar.{is_rule, is_sound};

use lf_syntax::{Grammar, Leaf, ScanFault, scan_nested};
use std::alloc::{AllocError, Global};
use std::test::Fail;

const RUNS: &[u8] = b"b ab aab aaab aaaab aaaaab aaaaaab";

const WORDS: &[u8] = b"a ab abb abbb abbbb abbbbb abbbbbb";

const JOINED: &[u8] =
    b"a ab a;a ab;a a;ab ab;ab a;a;a ab;a;a a;ab;a a;a;ab ab;ab;a ab;a;ab a;ab;ab a;a;a;a";

const NESTS: &[u8] = b"; ab aabb";

fn letter(n: u32) -> u8 {
    match n % 3 {
        0 => b'a',
        1 => b'b',
        _ => b';',
    }
}

fn text_of(alloc: Global, length: u32, number: u32) -> Result<Vec<u8>, AllocError> {
    let mut text = Vec::new(alloc);
    let mut left = number;
    for _k in 0..length {
        text.push(letter(left))?;
        left /= 3;
    }
    Ok(text)
}

/// How many first letters both have.
fn common(one: &[u8], two: &[u8]) -> u32 {
    let mut same = 0u32;
    for (x, y) in one.iter().zip(two) {
        if *x != *y {
            return same;
        }
        same = same.saturating_add(1);
    }
    same
}

/// The place by the list, or 1000 for a text that is in it.
fn listed(sentences: &[u8], text: &[u8]) -> u32 {
    let mut most = 0;
    for sentence in sentences.split(|b| *b == b' ') {
        if sentence == text {
            return 1000;
        }
        most = most.max(common(sentence, text));
    }
    most
}

fn place(alloc: Global, rule: &Grammar, language: &Grammar, text: &[u8]) -> u32
    requires rule { is_rule (grammar rule.now) ≡ true }
    requires sound { is_sound (grammar language.now) ≡ true }
{
    if text.len() >= 4294967296 {
        return 9999;
    }
    match scan_nested(alloc, rule, 2, language, text) {
        Ok(()) => 1000,
        Err(ScanFault::Syntax(place)) => place,
        Err(ScanFault::OutOfMemory) => 2000,
    }
}

/// The first text of up to six letters on which the two don't agree.
fn unlike(
    alloc: Global,
    rule: &Grammar,
    language: &Grammar,
    sentences: &[u8],
) -> Result<Option<Vec<u8>>, AllocError>
    requires rule { is_rule (grammar rule.now) ≡ true }
    requires sound { is_sound (grammar language.now) ≡ true }
{
    for length in 0..7u32 {
        for number in 0..729u32 {
            let text = text_of(alloc, length, number)?;
            if place(alloc, rule, language, text.as_slice()) != listed(sentences, text.as_slice()) {
                return Ok(Some(text));
            }
        }
    }
    Ok(None)
}

fn rule(alloc: Global) -> Result<Grammar, AllocError>
    ensures { IfOk result (λ made. grammar made ≡ nest_rule) }
{
    let inner = Grammar::choice(alloc, Grammar::leaf(Leaf::End), Grammar::again())?;
    let rest = Grammar::sequence(alloc, inner, Grammar::leaf(Leaf::Within(b'b', b'b')))?;
    Grammar::sequence(alloc, Grammar::leaf(Leaf::Within(b'a', b'a')), rest)
}

fn nests(alloc: Global) -> Result<Grammar, AllocError>
    ensures { IfOk result (λ made. grammar made ≡ nests) }
{
    Grammar::choice(
        alloc,
        Grammar::leaf(Leaf::Within(b';', b';')),
        Grammar::again(),
    )
}

fn runs(alloc: Global) -> Result<Grammar, AllocError>
    ensures { IfOk result (λ made. grammar made ≡ runs) }
{
    let run = Grammar::star(alloc, Grammar::leaf(Leaf::Within(b'a', b'a')))?;
    Grammar::sequence(alloc, run, Grammar::leaf(Leaf::Within(b'b', b'b')))
}

fn words(alloc: Global) -> Result<Grammar, AllocError>
    ensures { IfOk result (λ made. grammar made ≡ words) }
{
    let first = Grammar::choice(
        alloc,
        Grammar::word(alloc, b"ab")?,
        Grammar::word(alloc, b"a")?,
    )?;
    let run = Grammar::star(alloc, Grammar::leaf(Leaf::Within(b'b', b'b')))?;
    Grammar::sequence(alloc, first, run)
}

fn part(alloc: Global) -> Result<Grammar, AllocError>
    ensures { IfOk result (λ made. grammar made ≡ part) }
{
    Grammar::choice(
        alloc,
        Grammar::word(alloc, b"a")?,
        Grammar::word(alloc, b"ab")?,
    )
}

fn joined_parts(alloc: Global) -> Result<Grammar, AllocError>
    ensures { IfOk result (λ made. grammar made ≡ joined_parts) }
{
    let more = Grammar::sequence(alloc, Grammar::leaf(Leaf::Within(b';', b';')), part(alloc)?)?;
    let more = Grammar::star(alloc, more)?;
    Grammar::sequence(alloc, part(alloc)?, more)
}

#[test]
fn each_text(rt: HostRuntime) -> Result<(), Fail> {
    let alloc = rt.alloc();
    let rule = rule(alloc)?;
    assert_eq!(rt; unlike(alloc, &rule, &runs(alloc)?, RUNS)?, None);
    assert_eq!(rt; unlike(alloc, &rule, &words(alloc)?, WORDS)?, None);
    assert_eq!(rt; unlike(alloc, &rule, &joined_parts(alloc)?, JOINED)?, None);
    assert_eq!(rt; unlike(alloc, &rule, &nests(alloc)?, NESTS)?, None);
    Ok(())
}
