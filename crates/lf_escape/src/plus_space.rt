//! The code of IIS, by which a space is a plus sign.

ghost use Rattle.lf_escape.specs.Codes.{line_takes};
ghost use Rattle.lf_escape.specs.Plain.{plus_word};

use crate::code::Code;
use crate::word::Word;

/// A space is written as a plus sign, as a plus sign is, so the two have one word; the line feed is not taken.
#[derive(Clone, Copy, Debug, PartialEq, Eq)]
pub struct PlusSpace;

impl Code for PlusSpace {
    ghost use Rattle.lf_escape.specs.CodeLaws.{plus_code};

    ghost can_take = { λ _. line_takes };

    ghost word = { λ _. plus_word };

    ghost laws = { λ _. plus_code };

    fn takes(&self, letter: u8) -> bool {
        letter != b'\n'
    }

    fn word_of(&self, letter: u8) -> Word {
        if letter == b' ' {
            return Word::of_one(b'+');
        }
        Word::of_one(letter)
    }

    fn is_bare(&self, letter: u8) -> bool {
        letter != b' '
    }
}
