//! The code of HAProxy's log.

ghost use Rattle.lf_escape.specs.Codes.{byte_takes};
ghost use Rattle.lf_escape.specs.HaProxy.{hash_word};
ghost use Rattle.lf_escape.specs.CodeLaws.{hash_code};

use crate::code::{Apart, Code};
use crate::escapes::{hash_hex, is_printable};
use crate::word::Word;

/// The escapes of HAProxy's log.
#[derive(Clone, Copy, Debug, PartialEq, Eq)]
pub struct HaHash;

impl Code for HaHash {
    ghost can_take = { λ _. byte_takes };

    ghost word = { λ _. hash_word };

    ghost laws = { λ _. hash_code.laws };

    fn takes(&self, _letter: u8) -> bool {
        true
    }

    fn word_of(&self, letter: u8) -> Word {
        if letter == b'#' || letter == b'"' || !is_printable(letter) {
            return hash_hex(letter);
        }
        Word::of_one(letter)
    }

    fn is_bare(&self, letter: u8) -> bool {
        match letter {
            b'#' | b'"' => false,
            _ => is_printable(letter),
        }
    }
}

impl Apart for HaHash {
    ghost apart = { λ _. hash_code.apart };
}
