//! The code by which each letter stands for itself.

ghost use Rattle.lf_escape.specs.Codes.{line_takes};
ghost use Rattle.lf_escape.specs.Plain.{raw_word};
ghost use Rattle.lf_escape.specs.CodeLaws.{raw_code};

use crate::code::{Apart, Code};
use crate::word::Word;

/// Each letter but the line feed stands for itself.
#[derive(Clone, Copy, Debug, PartialEq, Eq)]
pub struct Raw;

impl Code for Raw {
    ghost can_take = { λ _. line_takes };

    ghost word = { λ _. raw_word };

    ghost laws = { λ _. raw_code.laws };

    fn takes(&self, letter: u8) -> bool {
        letter != b'\n'
    }

    fn word_of(&self, letter: u8) -> Word {
        Word::of_one(letter)
    }

    fn is_bare(&self, _letter: u8) -> bool {
        true
    }
}

impl Apart for Raw {
    ghost apart = { λ _. raw_code.apart };
}
