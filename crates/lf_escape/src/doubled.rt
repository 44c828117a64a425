//! The code that doubles double quotes.

ghost use Rattle.lf_escape.specs.Codes.{line_takes};
ghost use Rattle.lf_escape.specs.Plain.{doubled_word};
ghost use Rattle.lf_escape.specs.CodeLaws.{doubled_code};

use crate::code::{Apart, Code};
use crate::word::Word;

/// A double quote is doubled; the line feed is not taken.
#[derive(Clone, Copy, Debug, PartialEq, Eq)]
pub struct Doubled;

impl Code for Doubled {
    ghost can_take = { λ _. line_takes };

    ghost word = { λ _. doubled_word };

    ghost laws = { λ _. doubled_code.laws };

    fn takes(&self, letter: u8) -> bool {
        letter != b'\n'
    }

    fn word_of(&self, letter: u8) -> Word {
        if letter == b'"' {
            return Word::of_two(b'"', b'"');
        }
        Word::of_one(letter)
    }

    fn is_bare(&self, letter: u8) -> bool {
        letter != b'"'
    }
}

impl Apart for Doubled {
    ghost apart = { λ _. doubled_code.apart };
}
