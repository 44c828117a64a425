//! The front itself: its items, and the reading of a whole text.

ghost use Rattle.std.specs.Prelude.{◌≡◌, ◌≤◌, ℕ, List, length, IfOk};
ghost use Rattle.lf_limits.specs.Limits.{most_text_bytes};
ghost use Rattle.std.specs.Str.{IsUtf8};
ghost use Rattle.lf_spelling.specs.Spelling.{AnswersFormat, AnswersFault};
ghost use Rattle.lf_format.specs.Shape.{Shape};
ghost use Rattle.lf_spelling.specs.declared.fault.Cause.{Cause};
ghost use Rattle.nginx_front.specs.Nginx.{Spells, IsFaulty, HasOneAnswer};

use crate::table::Escape;
use crate::variable::dollar;
use lf_format::{Format, LineEnd};
use lf_spelling::{Cause, FormatFault, Given, ItemFault, ItemReader, Taken, read_text};
use std::alloc::Global;

/// nginx's language under an escape, which no item changes.
#[derive(Clone, Copy)]
struct Nginx {
    escape: Escape,
}

impl ItemReader for Nginx {
    ghost use Rattle.nginx_front.specs.Reading.{item_is as nginx_item_is, fault_is as nginx_fault_is, reading as nginx_reading};
    ghost use Rattle.nginx_front.specs.Laws.{laws as nginx_laws};

    ghost item_is = { nginx_item_is };

    ghost fault_is = { nginx_fault_is };

    ghost reading = { nginx_reading };

    ghost laws = { nginx_laws };

    fn item(&mut self, alloc: Global, rest: &[u8]) -> Result<Taken, ItemFault> {
        let escape = self.escape;
        let Some((first, after)) = rest.split_first() else {
            return Err(ItemFault::Fault(Cause::EmptyFormat));
        };
        match *first {
            b'\n' => Err(ItemFault::Fault(Cause::LineBreak)),
            b'$' => dollar(alloc, escape, after),
            byte => Ok(Taken {
                given: Given::Byte(byte),
                len: 1,
            }),
        }
    }
}

/// The format that bytes of text spell under an escape, or their first fault.
pub(crate) fn parse_bytes(alloc: Global, text: &[u8], escape: Escape) -> Result<Format, FormatFault>
    requires short { length text.now ≤ most_text_bytes }
    requires text { IsUtf8 text.now }
    ensures spelled { IfOk result (λ format. Spells escape text.now format) }
    ensures faulty { (place : ℕ) (cause : Cause) → result ≡ Err (FormatFault.At place cause) → IsFaulty escape text.now place cause }
    ensures only_spelled { (format : Shape) → Spells escape text.now format → AnswersFormat format result }
    ensures only_faulty { (place : ℕ) (cause : Cause) → IsFaulty escape text.now place cause → AnswersFault place cause result }
{
    read_text(alloc, Nginx { escape }, LineEnd::Lf, false, text)
}

/// The format that a text spells under an escape, or its first fault.
pub fn parse(alloc: Global, text: &str, escape: Escape) -> Result<Format, FormatFault>
    requires { length text.now ≤ most_text_bytes }
    // What is answered is so.
    ensures spelled { IfOk result (λ format. Spells escape text.now format) }
    ensures faulty { (place : ℕ) (cause : Cause) → result ≡ Err (FormatFault.At place cause) → IsFaulty escape text.now place cause }
    // What is so is answered, unless memory runs out.
    ensures only_spelled { (format : Shape) → Spells escape text.now format → AnswersFormat format result }
    ensures only_faulty { (place : ℕ) (cause : Cause) → IsFaulty escape text.now place cause → AnswersFault place cause result }
{
    parse_bytes(alloc, text.as_bytes(), escape)
}

/// Under an escape each text spells one format, or it has one first fault.
pub fn one_answer(escape: Escape)
    ensures { (text : List ℕ) → HasOneAnswer escape text }
{
    lf_spelling::one_answer(&Nginx { escape });
}
