//! The grammar of a narrowing's terms.
ghost use Rattle.std.specs.Prelude.{◌≡◌, IfOk};
ghost use Rattle.lf_syntax.specs.Shape.{grammar};
ghost use Rattle.lf_narrow.specs.Narrowing.{byte, int, set, wide, len_rule, range_rule, rule, term};

use lf_limits::MOST_LENGTH;
use lf_syntax::{Grammar, Leaf};
use std::alloc::{AllocError, Global};

fn byte(b: u8) -> Grammar
    ensures { grammar result ≡ byte b }
{
    Grammar::leaf(Leaf::Within(b, b))
}

fn int(alloc: Global) -> Result<Grammar, AllocError>
    ensures { IfOk result (λ made. grammar made ≡ int) }
{
    let negative = Grammar::sequence(
        alloc,
        byte(b'-'),
        Grammar::leaf(Leaf::Number(false, 9223372036854775808)),
    )?;
    Grammar::choice(
        alloc,
        Grammar::leaf(Leaf::Number(true, 9223372036854775807)),
        negative,
    )
}

fn set(alloc: Global) -> Result<Grammar, AllocError>
    ensures { IfOk result (λ made. grammar made ≡ set) }
{
    let more = Grammar::star(alloc, Grammar::leaf(Leaf::Item(0, true)))?;
    Grammar::sequence(alloc, Grammar::leaf(Leaf::Item(0, true)), more)
}

fn wide(alloc: Global) -> Result<Grammar, AllocError>
    ensures { IfOk result (λ made. grammar made ≡ wide) }
{
    let not = Grammar::sequence(alloc, Grammar::word(alloc, b"not ")?, set(alloc)?)?;
    let only = Grammar::sequence(alloc, Grammar::word(alloc, b"only ")?, set(alloc)?)?;
    let other = Grammar::choice(alloc, only, Grammar::word(alloc, b"present")?)?;
    Grammar::choice(alloc, not, other)
}

fn len_rule(alloc: Global) -> Result<Grammar, AllocError>
    ensures { IfOk result (λ made. grammar made ≡ len_rule) }
{
    let high = Grammar::choice(
        alloc,
        Grammar::leaf(Leaf::End),
        Grammar::leaf(Leaf::Number(true, MOST_LENGTH as u64)),
    )?;
    let rest = Grammar::sequence(alloc, Grammar::word(alloc, b"..")?, high)?;
    let rest = Grammar::sequence(
        alloc,
        Grammar::leaf(Leaf::Number(true, MOST_LENGTH as u64)),
        rest,
    )?;
    Grammar::sequence(alloc, Grammar::word(alloc, b"len ")?, rest)
}

fn range_rule(alloc: Global) -> Result<Grammar, AllocError>
    ensures { IfOk result (λ made. grammar made ≡ range_rule) }
{
    let rest = Grammar::sequence(alloc, Grammar::word(alloc, b"..")?, int(alloc)?)?;
    let rest = Grammar::sequence(alloc, int(alloc)?, rest)?;
    Grammar::sequence(alloc, Grammar::word(alloc, b"range ")?, rest)
}

fn rule(alloc: Global) -> Result<Grammar, AllocError>
    ensures { IfOk result (λ made. grammar made ≡ rule) }
{
    let other = Grammar::choice(alloc, len_rule(alloc)?, range_rule(alloc)?)?;
    Grammar::choice(alloc, wide(alloc)?, other)
}

/// The grammar of a term.
pub(crate) fn term(alloc: Global) -> Result<Grammar, AllocError>
    ensures { IfOk result (λ made. grammar made ≡ term) }
{
    let rest = Grammar::sequence(alloc, byte(b':'), rule(alloc)?)?;
    let rest = Grammar::sequence(alloc, Grammar::leaf(Leaf::Number(false, 999)), rest)?;
    let slot = Grammar::sequence(alloc, byte(b's'), rest)?;
    let all = Grammar::sequence(alloc, Grammar::word(alloc, b"*:")?, wide(alloc)?)?;
    Grammar::choice(alloc, slot, all)
}
