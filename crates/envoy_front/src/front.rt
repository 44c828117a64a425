//! The front itself: its items, and the reading of a whole text.

ghost use Rattle.std.specs.Prelude.{◌≡◌, ◌≤◌, ℕ, List, length, IfOk};
ghost use Rattle.lf_limits.specs.Limits.{most_text_bytes};
ghost use Rattle.lf_spelling.specs.Spelling.{AnswersFormat, AnswersFault};
ghost use Rattle.lf_format.specs.Shape.{Shape};
ghost use Rattle.lf_spelling.specs.declared.fault.Cause.{Cause};
ghost use Rattle.envoy_front.specs.Envoy.{Spells, IsFaulty, HasOneAnswer, without_end as text_without_end};

use crate::command::percent;
use lf_format::{Format, LineEnd};
use lf_spelling::{Cause, FormatFault, Given, ItemFault, ItemReader, Taken, read_text};
use std::alloc::Global;

/// Envoy's language, which has one state.
#[derive(Clone, Copy)]
struct Envoy;

impl ItemReader for Envoy {
    ghost use Rattle.envoy_front.specs.Reading.{item_is as envoy_item_is, fault_is as envoy_fault_is, reading as envoy_reading};
    ghost use Rattle.envoy_front.specs.Laws.{laws as envoy_laws};

    ghost item_is = { envoy_item_is };

    ghost fault_is = { envoy_fault_is };

    ghost reading = { envoy_reading };

    ghost laws = { envoy_laws };

    fn item(&mut self, alloc: Global, rest: &[u8]) -> Result<Taken, ItemFault> {
        let Some((first, after)) = rest.split_first() else {
            return Err(ItemFault::Fault(Cause::EmptyFormat));
        };
        match *first {
            b'\n' => Err(ItemFault::Fault(Cause::LineBreak)),
            b'%' => percent(alloc, after),
            byte => Ok(Taken {
                given: Given::Byte(byte),
                len: 1,
            }),
        }
    }
}

/// The text without the line feed at its very end.
fn without_end(text: &str) -> &str
    ensures { result.now ≡ text_without_end text.now }
{
    match text.strip_suffix('\n') {
        Some(front) => front,
        None => text,
    }
}

/// The format that a text spells, or its first fault. One line feed at the very end of the text is the
/// line's end and no part of the format.
pub fn parse(alloc: Global, text: &str) -> Result<Format, FormatFault>
    requires { length text.now ≤ most_text_bytes }
    // What is answered is so.
    ensures spelled { IfOk result (λ format. Spells text.now format) }
    ensures faulty { (place : ℕ) (cause : Cause) → result ≡ Err (FormatFault.At place cause) → IsFaulty text.now place cause }
    // What is so is answered, unless memory runs out.
    ensures only_spelled { (format : Shape) → Spells text.now format → AnswersFormat format result }
    ensures only_faulty { (place : ℕ) (cause : Cause) → IsFaulty text.now place cause → AnswersFault place cause result }
{
    let front = without_end(text);
    read_text(alloc, Envoy, LineEnd::Lf, false, front.as_bytes())
}

/// Each text spells one format, or it has one first fault.
pub fn one_answer()
    ensures { (text : List ℕ) → HasOneAnswer text }
{
    lf_spelling::one_answer(&Envoy);
}
