//! Parts of a format's text.

ghost use Rattle.std.specs.Prelude.{◌≡◌, ◌++◌, true, MatchOption, IfOk};
ghost use Rattle.std.specs.List.{prefix_len};
ghost use Rattle.std.specs.Option.{option_copied};
ghost use Rattle.std.specs.Str.{IsUtf8};
ghost use Rattle.lf_spelling.specs.Runs.{run, past};
ghost use Rattle.lf_spelling.specs.Enclosed.{is_not, is_unclosed, IsPart};

use lf_core::{OutOfMemory, Str};
use std::alloc::Global;

/// How many bytes stand before the first such byte, or all.
fn len_before(text: &[u8], byte: u8) -> usize
    ensures { result ≡ prefix_len (is_not byte) text.now }
{
    text.iter().take_while(|b| **b != byte).count()
}

/// The text before the first such byte, or all of it, and the text from there on.
#[tactic(auto, using(crate::specs::RunLaws::run_fits, crate::specs::RunLaws::run_front, crate::specs::RunLaws::run_back))]
pub fn cut_before(text: &[u8], byte: u8) -> (&[u8], &[u8])
    ensures front { result.0.now ≡ run (is_not byte) text.now }
    ensures back { result.1.now ≡ past (is_not byte) text.now }
{
    text.split_at(len_before(text, byte))
}

/// A text that is taken apart: the part between two brackets at its start, or none, and what follows.
#[derive(Clone, Copy)]
pub struct Cut<'a> {
    pub part: Option<&'a [u8]>,
    pub rest: &'a [u8],
}

/// Takes the part between two brackets off the start. None: a bracket is left open.
pub fn cut_part(text: &[u8], opening: u8, closing: u8) -> Option<Cut<'_>>
    ensures { MatchOption result (is_unclosed opening closing text.now ≡ true) (λ cut. IsPart opening closing text.now (option_copied cut.part) cut.rest.now) }
{
    let Some((first, inside)) = text.split_first() else {
        return Some(Cut {
            part: None,
            rest: text,
        });
    };
    if *first != opening {
        return Some(Cut {
            part: None,
            rest: text,
        });
    }
    let (part, closed) = cut_before(inside, closing);
    let Some((_end, rest)) = closed.split_first() else {
        return None;
    };
    Some(Cut {
        part: Some(part),
        rest,
    })
}

/// A slot's name as the format spells it: a sign, and what follows it.
pub fn spelled(alloc: Global, sign: &str, rest: &[u8]) -> Result<Str, OutOfMemory>
    requires { IsUtf8 rest.now }
    ensures { IfOk result (λ name. name ≡ sign.now ++ rest.now) }
{
    let Ok(rest) = str::from_utf8(rest) else {
        unreachable!()
    };
    let mut name = String::from_str(alloc, sign)?;
    name.push_str(rest)?;
    Ok(Str::from_string(name))
}
