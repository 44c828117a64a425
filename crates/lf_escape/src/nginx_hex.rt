//! The default code of nginx's log.

ghost use Rattle.lf_escape.specs.Codes.{byte_takes};
ghost use Rattle.lf_escape.specs.Nginx.{nginx_word};
ghost use Rattle.lf_escape.specs.CodeLaws.{nginx_code};

use crate::code::{Apart, Code};
use crate::escapes::{Case, backslash_hex, is_printable};
use crate::word::Word;

/// The default escapes of nginx's log.
#[derive(Clone, Copy, Debug, PartialEq, Eq)]
pub struct NginxHex;

impl Code for NginxHex {
    ghost can_take = { λ _. byte_takes };

    ghost word = { λ _. nginx_word };

    ghost laws = { λ _. nginx_code.laws };

    fn takes(&self, _letter: u8) -> bool {
        true
    }

    fn word_of(&self, letter: u8) -> Word {
        if letter == b'"' || letter == b'\\' || !is_printable(letter) {
            return backslash_hex(Case::Upper, letter);
        }
        Word::of_one(letter)
    }

    fn is_bare(&self, letter: u8) -> bool {
        match letter {
            b'"' | b'\\' => false,
            _ => is_printable(letter),
        }
    }
}

impl Apart for NginxHex {
    ghost apart = { λ _. nginx_code.apart };
}
