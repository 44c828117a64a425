//! The grammar of a field map.
ghost use Rattle.std.specs.Prelude.{◌≡◌, ◌<◌, ◌^◌, length, IfOk};
ghost use Rattle.lf_syntax.specs.Shape.{grammar};
ghost use Rattle.lf_small_grammars.specs.Map as map;

use crate::narrowing::int;
use crate::numbers::byte;
use lf_syntax::{Grammar, Leaf, ScanFault, scan_nested};
use std::alloc::{AllocError, Global};

fn within(low: u8, high: u8) -> Grammar
    ensures { grammar result ≡ map.within low high }
{
    Grammar::leaf(Leaf::Within(low, high))
}

fn hex_digit(alloc: Global) -> Result<Grammar, AllocError>
    ensures { IfOk result (λ made. grammar made ≡ map.hex_digit) }
{
    let letters = Grammar::choice(alloc, within(65, 70), within(97, 102))?;
    Grammar::choice(alloc, within(48, 57), letters)
}

fn escaped(alloc: Global) -> Result<Grammar, AllocError>
    ensures { IfOk result (λ made. grammar made ≡ map.escaped) }
{
    let digits = Grammar::sequence(alloc, hex_digit(alloc)?, hex_digit(alloc)?)?;
    let hex = Grammar::sequence(alloc, byte(b'x'), digits)?;
    let other = Grammar::choice(alloc, byte(92), hex)?;
    Grammar::choice(alloc, byte(34), other)
}

fn char(alloc: Global) -> Result<Grammar, AllocError>
    ensures { IfOk result (λ made. grammar made ≡ map.char) }
{
    let other = Grammar::sequence(alloc, byte(92), escaped(alloc)?)?;
    let other = Grammar::choice(alloc, within(93, 126), other)?;
    let other = Grammar::choice(alloc, within(35, 91), other)?;
    Grammar::choice(alloc, within(32, 33), other)
}

fn string(alloc: Global) -> Result<Grammar, AllocError>
    ensures { IfOk result (λ made. grammar made ≡ map.string) }
{
    let chars = Grammar::star(alloc, char(alloc)?)?;
    let rest = Grammar::sequence(alloc, chars, byte(34))?;
    Grammar::sequence(alloc, byte(34), rest)
}

fn expr(alloc: Global) -> Result<Grammar, AllocError>
    ensures { IfOk result (λ made. grammar made ≡ map.expr) }
{
    let slot = Grammar::sequence(alloc, byte(b's'), Grammar::leaf(Leaf::Number(false, 999)))?;
    let other = Grammar::choice(alloc, slot, Grammar::again())?;
    let other = Grammar::choice(alloc, string(alloc)?, other)?;
    let other = Grammar::choice(alloc, int(alloc)?, other)?;
    Grammar::choice(alloc, byte(b'-'), other)
}

fn minutes(alloc: Global) -> Result<Grammar, AllocError>
    ensures { IfOk result (λ made. grammar made ≡ map.minutes) }
{
    Grammar::sequence(alloc, within(48, 53), within(48, 57))
}

fn some_minutes(alloc: Global) -> Result<Grammar, AllocError>
    ensures { IfOk result (λ made. grammar made ≡ map.some_minutes) }
{
    let low = Grammar::sequence(alloc, byte(48), within(49, 57))?;
    let high = Grammar::sequence(alloc, within(49, 53), within(48, 57))?;
    Grammar::choice(alloc, low, high)
}

fn some_hours(alloc: Global) -> Result<Grammar, AllocError>
    ensures { IfOk result (λ made. grammar made ≡ map.some_hours) }
{
    let low = Grammar::sequence(alloc, byte(48), within(49, 57))?;
    let high = Grammar::sequence(alloc, byte(49), within(48, 57))?;
    let last = Grammar::sequence(alloc, byte(50), within(48, 51))?;
    let other = Grammar::choice(alloc, high, last)?;
    Grammar::choice(alloc, low, other)
}

fn offset(alloc: Global) -> Result<Grammar, AllocError>
    ensures { IfOk result (λ made. grammar made ≡ map.offset) }
{
    let zero = Grammar::sequence(alloc, Grammar::word(alloc, b"00")?, minutes(alloc)?)?;
    let some = Grammar::sequence(alloc, some_hours(alloc)?, minutes(alloc)?)?;
    let plus = Grammar::choice(alloc, some, zero)?;
    let plus = Grammar::sequence(alloc, byte(b'+'), plus)?;
    let zero = Grammar::sequence(alloc, Grammar::word(alloc, b"00")?, some_minutes(alloc)?)?;
    let some = Grammar::sequence(alloc, some_hours(alloc)?, minutes(alloc)?)?;
    let minus = Grammar::choice(alloc, some, zero)?;
    let minus = Grammar::sequence(alloc, byte(b'-'), minus)?;
    Grammar::choice(alloc, plus, minus)
}

fn one(alloc: Global, name: &[u8]) -> Result<Grammar, AllocError>
    ensures { IfOk result (λ made. grammar made ≡ map.one name.now) }
{
    let rest = Grammar::sequence(alloc, expr(alloc)?, byte(b')'))?;
    Grammar::sequence(alloc, Grammar::word(alloc, name)?, rest)
}

fn two(alloc: Global, name: &[u8], second: Grammar) -> Result<Grammar, AllocError>
    ensures { IfOk result (λ made. grammar made ≡ map.two name.now (grammar second)) }
{
    let rest = Grammar::sequence(alloc, second, byte(b')'))?;
    let rest = Grammar::sequence(alloc, byte(b','), rest)?;
    let rest = Grammar::sequence(alloc, expr(alloc)?, rest)?;
    Grammar::sequence(alloc, Grammar::word(alloc, name)?, rest)
}

fn line(alloc: Global) -> Result<Grammar, AllocError>
    ensures { IfOk result (λ made. grammar made ≡ map.line) }
{
    let rest = Grammar::sequence(alloc, expr(alloc)?, byte(b')'))?;
    let rest = Grammar::sequence(alloc, byte(b','), rest)?;
    let rest = Grammar::sequence(alloc, expr(alloc)?, rest)?;
    let rest = Grammar::sequence(alloc, byte(b','), rest)?;
    let rest = Grammar::sequence(alloc, expr(alloc)?, rest)?;
    Grammar::sequence(alloc, Grammar::word(alloc, b"line(")?, rest)
}

fn times(alloc: Global) -> Result<Grammar, AllocError>
    ensures { IfOk result (λ made. grammar made ≡ map.times) }
{
    let other = Grammar::choice(alloc, one(alloc, b"epoch(")?, one(alloc, b"msec(")?)?;
    let other = Grammar::choice(alloc, one(alloc, b"clock(")?, other)?;
    let other = Grammar::choice(alloc, one(alloc, b"date(")?, other)?;
    let other = Grammar::choice(alloc, one(alloc, b"sec(")?, other)?;
    Grammar::choice(alloc, one(alloc, b"utc(")?, other)
}

fn others(alloc: Global) -> Result<Grammar, AllocError>
    ensures { IfOk result (λ made. grammar made ≡ map.others) }
{
    let divided = two(
        alloc,
        b"div(",
        Grammar::leaf(Leaf::Number(false, 9223372036854775807)),
    )?;
    let other = Grammar::choice(alloc, divided, two(alloc, b"mul(", int(alloc)?)?)?;
    let other = Grammar::choice(alloc, two(alloc, b"part(", within(49, 57))?, other)?;
    let other = Grammar::choice(alloc, two(alloc, b"zoned(", offset(alloc)?)?, other)?;
    let other = Grammar::choice(alloc, two(alloc, b"at(", expr(alloc)?)?, other)?;
    Grammar::choice(alloc, two(alloc, b"or(", expr(alloc)?)?, other)
}

fn call(alloc: Global) -> Result<Grammar, AllocError>
    ensures { IfOk result (λ made. grammar made ≡ map.call) }
{
    let other = Grammar::choice(alloc, others(alloc)?, line(alloc)?)?;
    Grammar::choice(alloc, times(alloc)?, other)
}

fn assign(alloc: Global) -> Result<Grammar, AllocError>
    ensures { IfOk result (λ made. grammar made ≡ map.assign) }
{
    let rest = Grammar::sequence(alloc, byte(b'='), expr(alloc)?)?;
    let rest = Grammar::sequence(alloc, Grammar::leaf(Leaf::Number(false, 999)), rest)?;
    Grammar::sequence(alloc, byte(b's'), rest)
}

fn map(alloc: Global) -> Result<Grammar, AllocError>
    ensures { IfOk result (λ made. grammar made ≡ map.map) }
{
    let more = Grammar::sequence(alloc, byte(b';'), assign(alloc)?)?;
    let more = Grammar::star(alloc, more)?;
    Grammar::sequence(alloc, assign(alloc)?, more)
}

pub(crate) fn check_map(alloc: Global, text: &[u8]) -> Result<(), ScanFault>
    requires { length text.now < 2 ^ 32 }
{
    let Ok(rule) = call(alloc) else {
        return Err(ScanFault::OutOfMemory)
    };
    let Ok(language) = map(alloc) else {
        return Err(ScanFault::OutOfMemory)
    };
    scan_nested(alloc, &rule, 16, &language, text)
}
