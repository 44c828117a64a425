//! The code of HAProxy's log under the flag E.

ghost use Rattle.lf_escape.specs.Codes.{line_takes};
ghost use Rattle.lf_escape.specs.HaProxy.{escape_word};
ghost use Rattle.lf_escape.specs.CodeLaws.{escape_code};

use crate::code::{Apart, Code};
use crate::escapes::backslashed;
use crate::word::Word;

/// A quote, a backslash and a closing bracket have a backslash before them; the line feed is not taken.
#[derive(Clone, Copy, Debug, PartialEq, Eq)]
pub struct HaEscape;

impl Code for HaEscape {
    ghost can_take = { λ _. line_takes };

    ghost word = { λ _. escape_word };

    ghost laws = { λ _. escape_code.laws };

    fn takes(&self, letter: u8) -> bool {
        letter != b'\n'
    }

    fn word_of(&self, letter: u8) -> Word {
        match letter {
            b'"' | b'\\' | b']' => backslashed(letter),
            _ => Word::of_one(letter),
        }
    }

    fn is_bare(&self, letter: u8) -> bool {
        match letter {
            b'"' | b'\\' | b']' => false,
            _ => true,
        }
    }
}

impl Apart for HaEscape {
    ghost apart = { λ _. escape_code.apart };
}
