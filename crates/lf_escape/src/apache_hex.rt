//! The code of Apache's log.

ghost use Rattle.lf_escape.specs.Codes.{byte_takes};
ghost use Rattle.lf_escape.specs.Apache.{apache_word};
ghost use Rattle.lf_escape.specs.CodeLaws.{apache_code};

use crate::code::{Apart, Code};
use crate::escapes::{Case, backslash_hex, backslashed, is_printable};
use crate::word::Word;

/// The escapes of Apache's log.
#[derive(Clone, Copy, Debug, PartialEq, Eq)]
pub struct ApacheHex;

impl Code for ApacheHex {
    ghost can_take = { λ _. byte_takes };

    ghost word = { λ _. apache_word };

    ghost laws = { λ _. apache_code.laws };

    fn takes(&self, _letter: u8) -> bool {
        true
    }

    fn word_of(&self, letter: u8) -> Word {
        match letter {
            b'"' => backslashed(b'"'),
            b'\\' => backslashed(b'\\'),
            b'\x08' => backslashed(b'b'),
            b'\n' => backslashed(b'n'),
            b'\r' => backslashed(b'r'),
            b'\t' => backslashed(b't'),
            b'\x0B' => backslashed(b'v'),
            b' '..=b'~' => Word::of_one(letter),
            _ => backslash_hex(Case::Lower, letter),
        }
    }

    fn is_bare(&self, letter: u8) -> bool {
        match letter {
            b'"' | b'\\' => false,
            _ => is_printable(letter),
        }
    }
}

impl Apart for ApacheHex {
    ghost apart = { λ _. apache_code.apart };
}
