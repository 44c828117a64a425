//! The grammar of a directive, and the place of a fault by a grammar.

ghost use Rattle.std.specs.Prelude.{◌≡◌, ◌<◌, ◌≤◌, ℕ, true, length, IfOk};
ghost use Rattle.lf_limits.specs.Limits.{most_text_bytes};
ghost use Rattle.lf_syntax.specs.Grammar.{is_sound, leaf, sequence, choice, star};
ghost use Rattle.lf_syntax.specs.declared.leaf.Leaf.TheVariants.{End};
ghost use Rattle.lf_syntax.specs.Shape.{grammar};
ghost use Rattle.nginx_front.specs.Syntax.{Is, PlaceIs, one_of, byte, some, white, name_byte, bare, letter, opened, string, part, head, tail, directive, before_escape, before_string, half_string};

use lf_core::OutOfMemory;
use lf_syntax::{Grammar, Leaf, ScanFault, scan_text};
use std::alloc::{AllocError, Global};

/// One byte of some ranges or of the last.
fn one_of(alloc: Global, ranges: &[(u8, u8)], last: (u8, u8)) -> Result<Grammar, AllocError>
    ensures { IfOk result (λ made. grammar made ≡ one_of ranges.now last) }
{
    match ranges.split_first() {
        None => Ok(Grammar::leaf(Leaf::Within(last.0, last.1))),
        Some((range, rest)) => {
            let first = Grammar::leaf(Leaf::Within(range.0, range.1));
            let rest = one_of(alloc, rest, last)?;
            Grammar::choice(alloc, first, rest)
        }
    }
}

fn byte(b: u8) -> Grammar
    ensures { grammar result ≡ byte b }
{
    Grammar::leaf(Leaf::Within(b, b))
}

/// One, and then more.
fn some(alloc: Global, one: Grammar, more: Grammar) -> Result<Grammar, AllocError>
    ensures { IfOk result (λ made. grammar made ≡ sequence (grammar one) (star (grammar more))) }
{
    let more = Grammar::star(alloc, more)?;
    Grammar::sequence(alloc, one, more)
}

fn white(alloc: Global) -> Result<Grammar, AllocError>
    ensures { IfOk result (λ made. grammar made ≡ white) }
{
    one_of(alloc, &[(32, 32), (9, 10)], (13, 13))
}

fn some_white(alloc: Global) -> Result<Grammar, AllocError>
    ensures { IfOk result (λ made. grammar made ≡ some white) }
{
    some(alloc, white(alloc)?, white(alloc)?)
}

fn name_byte(alloc: Global) -> Result<Grammar, AllocError>
    ensures { IfOk result (λ made. grammar made ≡ name_byte) }
{
    one_of(alloc, &[(97, 122), (95, 95), (65, 90), (48, 57)], (45, 46))
}

fn bare(alloc: Global) -> Result<Grammar, AllocError>
    ensures { IfOk result (λ made. grammar made ≡ bare) }
{
    let ranges = [
        (93, 255),
        (60, 91),
        (40, 58),
        (35, 38),
        (33, 33),
        (14, 31),
        (11, 12),
    ];
    one_of(alloc, &ranges, (0, 8))
}

fn letter(alloc: Global, quote: u8) -> Result<Grammar, AllocError>
    requires { (0 < quote) × (quote < 91) }
    ensures { IfOk result (λ made. grammar made ≡ letter quote) }
{
    let plain = one_of(alloc, &[(93, 255), (quote + 1, 91)], (0, quote - 1))?;
    let any = Grammar::leaf(Leaf::Within(0, 255));
    let escape = Grammar::sequence(alloc, byte(b'\\'), any)?;
    Grammar::choice(alloc, plain, escape)
}

/// A quote and what stands after it.
fn opened(alloc: Global, quote: u8, end: Grammar) -> Result<Grammar, AllocError>
    requires { (0 < quote) × (quote < 91) }
    ensures { IfOk result (λ made. grammar made ≡ opened quote (grammar end)) }
{
    let letter = letter(alloc, quote)?;
    let letters = Grammar::star(alloc, letter)?;
    let rest = Grammar::sequence(alloc, letters, end)?;
    Grammar::sequence(alloc, byte(quote), rest)
}

fn string(alloc: Global) -> Result<Grammar, AllocError>
    ensures { IfOk result (λ made. grammar made ≡ string) }
{
    let double = opened(alloc, b'"', byte(b'"'))?;
    let single = opened(alloc, b'\'', byte(b'\''))?;
    let quoted = Grammar::choice(alloc, double, single)?;
    let bare = some(alloc, bare(alloc)?, bare(alloc)?)?;
    Grammar::choice(alloc, bare, quoted)
}

/// White space, `log_format`, white space and a name.
fn head(alloc: Global) -> Result<Grammar, AllocError>
    ensures { IfOk result (λ made. grammar made ≡ head) }
{
    let rest = Grammar::sequence(
        alloc,
        some_white(alloc)?,
        some(alloc, name_byte(alloc)?, name_byte(alloc)?)?,
    )?;
    let rest = Grammar::sequence(alloc, Grammar::word(alloc, b"log_format")?, rest)?;
    Grammar::sequence(alloc, Grammar::star(alloc, white(alloc)?)?, rest)
}

/// White space, `;` and white space.
fn tail(alloc: Global) -> Result<Grammar, AllocError>
    ensures { IfOk result (λ made. grammar made ≡ tail) }
{
    let rest = Grammar::star(alloc, white(alloc)?)?;
    let rest = Grammar::sequence(alloc, byte(b';'), rest)?;
    Grammar::sequence(alloc, Grammar::star(alloc, white(alloc)?)?, rest)
}

/// Strings after white space, and what follows them.
fn parts(alloc: Global, rest: Grammar) -> Result<Grammar, AllocError>
    ensures { IfOk result (λ made. grammar made ≡ sequence (star part) (grammar rest)) }
{
    let part = Grammar::sequence(alloc, some_white(alloc)?, string(alloc)?)?;
    Grammar::sequence(alloc, Grammar::star(alloc, part)?, rest)
}

/// A directive, in which any bare string may stand for the escape.
pub fn directive(alloc: Global) -> Result<Grammar, AllocError>
    ensures { IfOk result (λ made. grammar made ≡ directive) }
{
    let rest = parts(alloc, tail(alloc)?)?;
    Grammar::sequence(alloc, head(alloc)?, rest)
}

/// What stands before an escape.
pub fn before_escape(alloc: Global) -> Result<Grammar, AllocError>
    ensures { IfOk result (λ made. grammar made ≡ before_escape) }
{
    Grammar::sequence(alloc, head(alloc)?, some_white(alloc)?)
}

/// A directive that ends in quotes.
pub fn open_directive(alloc: Global) -> Result<Grammar, AllocError>
    ensures { IfOk result (λ made. grammar made ≡ sequence before_string half_string) }
{
    let before = parts(alloc, some_white(alloc)?)?;
    let before = Grammar::sequence(alloc, head(alloc)?, before)?;
    let double = opened(alloc, b'"', half_end(alloc)?)?;
    let single = opened(alloc, b'\'', half_end(alloc)?)?;
    let half = Grammar::choice(alloc, double, single)?;
    Grammar::sequence(alloc, before, half)
}

/// Nothing, or a backslash.
fn half_end(alloc: Global) -> Result<Grammar, AllocError>
    ensures { IfOk result (λ made. grammar made ≡ choice (leaf End) (byte 92)) }
{
    Grammar::choice(alloc, Grammar::leaf(Leaf::End), byte(b'\\'))
}

/// The place of the text's fault by a grammar, or None where it is of the grammar.
pub fn place_by(alloc: Global, language: &Grammar, text: &[u8]) -> Result<Option<u32>, OutOfMemory>
    requires sound { is_sound (grammar language.now) ≡ true }
    requires short { length text.now ≤ most_text_bytes }
    ensures { IfOk result (λ place. PlaceIs (Is (grammar language.now)) text.now place) }
{
    match scan_text(alloc, language, text) {
        Ok(()) => Ok(None),
        Err(ScanFault::Syntax(place)) => Ok(Some(place)),
        Err(ScanFault::OutOfMemory) => Err(OutOfMemory),
    }
}
