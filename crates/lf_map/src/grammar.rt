//! The grammar of a field map.

ghost use Rattle.std.specs.Prelude.{◌≡◌, IfOk};
ghost use Rattle.lf_syntax.specs.Cuts.{separated};
ghost use Rattle.lf_syntax.specs.Shape.{grammar};
ghost use Rattle.lf_map.specs.Map.{within, byte, int, hex_digit, escaped, letter, string, plain, expr, minutes, some_minutes, some_hours, offset, one, two, line, times, others, call, assign};

use lf_syntax::{Grammar, Leaf};
use std::alloc::{AllocError, Global};

fn within(low: u8, high: u8) -> Grammar
    ensures { grammar result ≡ within low high }
{
    Grammar::leaf(Leaf::Within(low, high))
}

fn byte(b: u8) -> Grammar
    ensures { grammar result ≡ byte b }
{
    Grammar::leaf(Leaf::Within(b, b))
}

fn int(alloc: Global) -> Result<Grammar, AllocError>
    ensures { IfOk result (λ made. grammar made ≡ int) }
{
    let negative = Grammar::sequence(
        alloc,
        byte(b'-'),
        Grammar::leaf(Leaf::Number(false, 9223372036854775808)),
    )?;
    Grammar::choice(
        alloc,
        Grammar::leaf(Leaf::Number(true, 9223372036854775807)),
        negative,
    )
}

fn hex_digit(alloc: Global) -> Result<Grammar, AllocError>
    ensures { IfOk result (λ made. grammar made ≡ hex_digit) }
{
    let letters = Grammar::choice(alloc, within(65, 70), within(97, 102))?;
    Grammar::choice(alloc, within(48, 57), letters)
}

fn escaped(alloc: Global) -> Result<Grammar, AllocError>
    ensures { IfOk result (λ made. grammar made ≡ escaped) }
{
    let digits = Grammar::sequence(alloc, hex_digit(alloc)?, hex_digit(alloc)?)?;
    let hex = Grammar::sequence(alloc, byte(b'x'), digits)?;
    let other = Grammar::choice(alloc, byte(b'\\'), hex)?;
    Grammar::choice(alloc, byte(b'"'), other)
}

fn letter(alloc: Global) -> Result<Grammar, AllocError>
    ensures { IfOk result (λ made. grammar made ≡ letter) }
{
    let other = Grammar::sequence(alloc, byte(b'\\'), escaped(alloc)?)?;
    let other = Grammar::choice(alloc, within(93, 126), other)?;
    let other = Grammar::choice(alloc, within(35, 91), other)?;
    Grammar::choice(alloc, within(32, 33), other)
}

fn string(alloc: Global) -> Result<Grammar, AllocError>
    ensures { IfOk result (λ made. grammar made ≡ string) }
{
    let letters = Grammar::star(alloc, letter(alloc)?)?;
    let rest = Grammar::sequence(alloc, letters, byte(b'"'))?;
    Grammar::sequence(alloc, byte(b'"'), rest)
}

fn plain(alloc: Global) -> Result<Grammar, AllocError>
    ensures { IfOk result (λ made. grammar made ≡ plain) }
{
    let slot = Grammar::sequence(alloc, byte(b's'), Grammar::leaf(Leaf::Number(false, 999)))?;
    let other = Grammar::choice(alloc, int(alloc)?, slot)?;
    Grammar::choice(alloc, byte(b'-'), other)
}

fn expr(alloc: Global) -> Result<Grammar, AllocError>
    ensures { IfOk result (λ made. grammar made ≡ expr) }
{
    let other = Grammar::choice(alloc, string(alloc)?, Grammar::again())?;
    Grammar::choice(alloc, plain(alloc)?, other)
}

fn minutes(alloc: Global) -> Result<Grammar, AllocError>
    ensures { IfOk result (λ made. grammar made ≡ minutes) }
{
    Grammar::sequence(alloc, within(48, 53), within(48, 57))
}

fn some_minutes(alloc: Global) -> Result<Grammar, AllocError>
    ensures { IfOk result (λ made. grammar made ≡ some_minutes) }
{
    let low = Grammar::sequence(alloc, byte(48), within(49, 57))?;
    let high = Grammar::sequence(alloc, within(49, 53), within(48, 57))?;
    Grammar::choice(alloc, low, high)
}

fn some_hours(alloc: Global) -> Result<Grammar, AllocError>
    ensures { IfOk result (λ made. grammar made ≡ some_hours) }
{
    let low = Grammar::sequence(alloc, byte(48), within(49, 57))?;
    let high = Grammar::sequence(alloc, byte(49), within(48, 57))?;
    let last = Grammar::sequence(alloc, byte(50), within(48, 51))?;
    let other = Grammar::choice(alloc, high, last)?;
    Grammar::choice(alloc, low, other)
}

fn offset(alloc: Global) -> Result<Grammar, AllocError>
    ensures { IfOk result (λ made. grammar made ≡ offset) }
{
    let zero = Grammar::sequence(alloc, Grammar::word(alloc, b"00")?, minutes(alloc)?)?;
    let some = Grammar::sequence(alloc, some_hours(alloc)?, minutes(alloc)?)?;
    let plus = Grammar::choice(alloc, some, zero)?;
    let plus = Grammar::sequence(alloc, byte(b'+'), plus)?;
    let zero = Grammar::sequence(alloc, Grammar::word(alloc, b"00")?, some_minutes(alloc)?)?;
    let some = Grammar::sequence(alloc, some_hours(alloc)?, minutes(alloc)?)?;
    let minus = Grammar::choice(alloc, some, zero)?;
    let minus = Grammar::sequence(alloc, byte(b'-'), minus)?;
    Grammar::choice(alloc, plus, minus)
}

fn one(alloc: Global, name: &[u8]) -> Result<Grammar, AllocError>
    ensures { IfOk result (λ made. grammar made ≡ one name.now) }
{
    let rest = Grammar::sequence(alloc, expr(alloc)?, byte(b')'))?;
    Grammar::sequence(alloc, Grammar::word(alloc, name)?, rest)
}

fn two(alloc: Global, name: &[u8], second: Grammar) -> Result<Grammar, AllocError>
    ensures { IfOk result (λ made. grammar made ≡ two name.now (grammar second)) }
{
    let rest = Grammar::sequence(alloc, second, byte(b')'))?;
    let rest = Grammar::sequence(alloc, byte(b','), rest)?;
    let rest = Grammar::sequence(alloc, expr(alloc)?, rest)?;
    Grammar::sequence(alloc, Grammar::word(alloc, name)?, rest)
}

fn line(alloc: Global) -> Result<Grammar, AllocError>
    ensures { IfOk result (λ made. grammar made ≡ line) }
{
    let rest = Grammar::sequence(alloc, expr(alloc)?, byte(b')'))?;
    let rest = Grammar::sequence(alloc, byte(b','), rest)?;
    let rest = Grammar::sequence(alloc, expr(alloc)?, rest)?;
    let rest = Grammar::sequence(alloc, byte(b','), rest)?;
    let rest = Grammar::sequence(alloc, expr(alloc)?, rest)?;
    Grammar::sequence(alloc, Grammar::word(alloc, b"line(")?, rest)
}

fn times(alloc: Global) -> Result<Grammar, AllocError>
    ensures { IfOk result (λ made. grammar made ≡ times) }
{
    let other = Grammar::choice(alloc, one(alloc, b"epoch(")?, one(alloc, b"msec(")?)?;
    let other = Grammar::choice(alloc, one(alloc, b"clock(")?, other)?;
    let other = Grammar::choice(alloc, one(alloc, b"date(")?, other)?;
    let other = Grammar::choice(alloc, one(alloc, b"sec(")?, other)?;
    Grammar::choice(alloc, one(alloc, b"utc(")?, other)
}

fn others(alloc: Global) -> Result<Grammar, AllocError>
    ensures { IfOk result (λ made. grammar made ≡ others) }
{
    let divided = two(
        alloc,
        b"div(",
        Grammar::leaf(Leaf::Number(false, 9223372036854775807)),
    )?;
    let other = Grammar::choice(alloc, divided, two(alloc, b"mul(", int(alloc)?)?)?;
    let other = Grammar::choice(alloc, two(alloc, b"part(", within(49, 57))?, other)?;
    let other = Grammar::choice(alloc, two(alloc, b"zoned(", offset(alloc)?)?, other)?;
    let other = Grammar::choice(alloc, two(alloc, b"at(", expr(alloc)?)?, other)?;
    Grammar::choice(alloc, two(alloc, b"or(", expr(alloc)?)?, other)
}

/// The grammar of a call, which may have calls in it.
pub(crate) fn call(alloc: Global) -> Result<Grammar, AllocError>
    ensures { IfOk result (λ made. grammar made ≡ call) }
{
    let other = Grammar::choice(alloc, others(alloc)?, line(alloc)?)?;
    Grammar::choice(alloc, times(alloc)?, other)
}

/// The grammar of an assignment.
pub(crate) fn assign(alloc: Global) -> Result<Grammar, AllocError>
    ensures { IfOk result (λ made. grammar made ≡ assign) }
{
    let rest = Grammar::sequence(alloc, byte(b'='), expr(alloc)?)?;
    let rest = Grammar::sequence(alloc, Grammar::leaf(Leaf::Number(false, 999)), rest)?;
    Grammar::sequence(alloc, byte(b's'), rest)
}

/// The grammar of a whole map.
pub(crate) fn map(alloc: Global) -> Result<Grammar, AllocError>
    ensures { IfOk result (λ made. grammar made ≡ separated 59 assign) }
{
    let more = Grammar::sequence(alloc, byte(b';'), assign(alloc)?)?;
    let more = Grammar::star(alloc, more)?;
    Grammar::sequence(alloc, assign(alloc)?, more)
}
