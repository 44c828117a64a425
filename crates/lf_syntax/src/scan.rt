//! A text read byte by byte, to its end or to the place of its fault.
ghost use Rattle.std.specs.Prelude.{◌≡◌, ◌<◌, ◌^◌, length, true, IfOk, IfErr};
ghost use Rattle.lf_syntax.specs.Cause.{IsCause};
ghost use Rattle.lf_syntax.specs.Grammar.{Sentence, NestedSentence, is_sound, is_rule};
ghost use Rattle.lf_syntax.specs.Shape.{grammar, threads};
ghost use Rattle.lf_syntax.specs.Threads.{start};

use crate::grammar::Grammar;
use crate::leaf::Leaf;
use crate::thread::{Part, Step, Thread, may_end, step_all};
use std::alloc::{AllocError, Global};

/// Why a text was refused.
#[derive(Clone, Copy, Debug, PartialEq, Eq)]
pub enum ScanFault {
    /// It is no sentence: the length of its longest prefix that some sentence begins with.
    Syntax(u32),
    /// Memory ran out.
    OutOfMemory,
}

/// Reads the whole text: Ok exactly where it is a sentence, Syntax exactly at the place of its fault.
pub fn scan_text(alloc: Global, language: &Grammar, text: &[u8]) -> Result<(), ScanFault>
    requires sound { is_sound (grammar language.now) ≡ true }
    requires short { length text.now < 2 ^ 32 }
    ensures sentence { IfOk result (λ done. Sentence (grammar language.now) text.now) }
    ensures cause { IfErr result (λ fault. IsCause (Sentence (grammar language.now)) text.now fault) }
{
    let rule = Grammar::leaf(Leaf::Within(0, 0));
    scan_nested(alloc, &rule, 0, language, text)
}

/// The same for a language with a rule, of which at most `depth` lie in one another.
pub fn scan_nested(
    alloc: Global,
    rule: &Grammar,
    depth: u8,
    language: &Grammar,
    text: &[u8],
) -> Result<(), ScanFault>
    requires rule { is_rule (grammar rule.now) ≡ true }
    requires sound { is_sound (grammar language.now) ≡ true }
    requires short { length text.now < 2 ^ 32 }
    ensures sentence { IfOk result (λ done. NestedSentence (grammar rule.now) depth (grammar language.now) text.now) }
    ensures cause { IfErr result (λ fault. IsCause (NestedSentence (grammar rule.now) depth (grammar language.now)) text.now fault) }
{
    let Ok(all) = started(alloc, depth, language) else {
        return Err(ScanFault::OutOfMemory)
    };
    let mut all = all;
    for (i, byte) in text.iter().enumerate() {
        let step = Step {
            alloc,
            rule,
            byte: *byte,
        };
        let Ok(()) = step_all(&step, &mut all) else {
            return Err(ScanFault::OutOfMemory)
        };
        if all.as_slice().is_empty() {
            return Err(ScanFault::Syntax(i as u32));
        }
    }
    if may_end(all.as_slice()) {
        return Ok(());
    }
    Err(ScanFault::Syntax(text.len() as u32))
}

fn started<'g>(alloc: Global, depth: u8, next: &'g Grammar) -> Result<Vec<Thread<'g>>, AllocError>
    ensures { IfOk result (λ made. threads made.items ≡ start depth (grammar next.now)) }
{
    let mut below = Vec::new(alloc);
    below.push(Part {
        depth,
        grammar: next,
    })?;
    let mut all = Vec::new(alloc);
    all.push(Thread {
        top: Leaf::End,
        below,
    })?;
    Ok(all)
}
