//! Numbers joined by `;`.
ghost use Rattle.std.specs.Prelude.{◌≡◌, ◌<◌, ◌^◌, length, IfOk};
ghost use Rattle.lf_syntax.specs.Shape.{grammar};
ghost use Rattle.lf_small_grammars.specs.Numbers.{byte, numbers};

use lf_syntax::{Grammar, Leaf, ScanFault, scan_text};
use std::alloc::{AllocError, Global};

pub(crate) fn byte(value: u8) -> Grammar
    ensures { grammar result ≡ byte value }
{
    Grammar::leaf(Leaf::Within(value, value))
}

fn numbers(alloc: Global) -> Result<Grammar, AllocError>
    ensures { IfOk result (λ made. grammar made ≡ numbers) }
{
    let number = Grammar::leaf(Leaf::Number(true, 99999));
    let more = Grammar::sequence(alloc, byte(b';'), Grammar::leaf(Leaf::Number(true, 99999)))?;
    let more = Grammar::star(alloc, more)?;
    Grammar::sequence(alloc, number, more)
}

pub(crate) fn check_numbers(alloc: Global, text: &[u8]) -> Result<(), ScanFault>
    requires { length text.now < 2 ^ 32 }
{
    match numbers(alloc) {
        Err(_) => Err(ScanFault::OutOfMemory),
        Ok(language) => scan_text(alloc, &language, text),
    }
}
