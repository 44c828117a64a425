//! The front itself: its items, and the reading of a whole text.

ghost use Rattle.std.specs.Prelude.{◌≡◌, ◌≤◌, ℕ, List, length, IfOk};
ghost use Rattle.lf_limits.specs.Limits.{most_text_bytes};
ghost use Rattle.lf_spelling.specs.Spelling.{AnswersFormat, AnswersFault};
ghost use Rattle.lf_format.specs.Shape.{Shape};
ghost use Rattle.lf_spelling.specs.declared.fault.Cause.{Cause};
ghost use Rattle.haproxy_front.specs.HaProxy.{Spells, IsFaulty, HasOneAnswer};

use crate::flags::Flags;
use crate::item::space_run;
use lf_format::{Format, LineEnd};
use lf_spelling::{Cause, FormatFault, Given, ItemFault, ItemReader, Taken, read_text};
use std::alloc::Global;

/// HAProxy's language. Its states are the flags that hold.
impl ItemReader for Flags {
    ghost use Rattle.haproxy_front.specs.Reading.{item_is as ha_item_is, fault_is as ha_fault_is, reading as ha_reading};
    ghost use Rattle.haproxy_front.specs.Laws.{laws as ha_laws};

    ghost item_is = { ha_item_is };

    ghost fault_is = { ha_fault_is };

    ghost reading = { ha_reading };

    ghost laws = { ha_laws };

    fn item(&mut self, alloc: Global, rest: &[u8]) -> Result<Taken, ItemFault> {
        let Some((first, after)) = rest.split_first() else {
            return Err(ItemFault::Fault(Cause::EmptyFormat));
        };
        match *first {
            b'\n' => Err(ItemFault::Fault(Cause::LineBreak)),
            b' ' => Ok(Taken {
                given: Given::Byte(b' '),
                len: 1 + space_run(after),
            }),
            b'%' => self.percent(alloc, after),
            byte => Ok(Taken {
                given: Given::Byte(byte),
                len: 1,
            }),
        }
    }
}

/// The format that a text spells, or its first fault.
pub fn parse(alloc: Global, text: &str) -> Result<Format, FormatFault>
    requires { length text.now ≤ most_text_bytes }
    // What is answered is so.
    ensures spelled { IfOk result (λ format. Spells text.now format) }
    ensures faulty { (place : ℕ) (cause : Cause) → result ≡ Err (FormatFault.At place cause) → IsFaulty text.now place cause }
    // What is so is answered, unless memory runs out.
    ensures only_spelled { (format : Shape) → Spells text.now format → AnswersFormat format result }
    ensures only_faulty { (place : ℕ) (cause : Cause) → IsFaulty text.now place cause → AnswersFault place cause result }
{
    read_text(alloc, Flags::NONE, LineEnd::Lf, false, text.as_bytes())
}

/// Each text spells one format, or it has one first fault.
pub fn one_answer()
    ensures { (text : List ℕ) → HasOneAnswer text }
{
    lf_spelling::one_answer(&Flags::NONE);
}
