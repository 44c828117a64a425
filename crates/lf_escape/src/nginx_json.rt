//! The code of nginx's log in JSON.

ghost use Rattle.lf_escape.specs.Codes.{byte_takes};
ghost use Rattle.lf_escape.specs.Nginx.{json_word};
ghost use Rattle.lf_escape.specs.CodeLaws.{json_code};

use crate::code::{Apart, Code};
use crate::escapes::{Case, backslashed, high_digit, low_digit};
use crate::word::Word;

/// The JSON escapes of nginx's log.
#[derive(Clone, Copy, Debug, PartialEq, Eq)]
pub struct NginxJson;

impl Code for NginxJson {
    ghost can_take = { λ _. byte_takes };

    ghost word = { λ _. json_word };

    ghost laws = { λ _. json_code.laws };

    fn takes(&self, _letter: u8) -> bool {
        true
    }

    fn word_of(&self, letter: u8) -> Word {
        match letter {
            b'"' => backslashed(b'"'),
            b'\\' => backslashed(b'\\'),
            b'\n' => backslashed(b'n'),
            b'\r' => backslashed(b'r'),
            b'\t' => backslashed(b't'),
            b'\x08' => backslashed(b'b'),
            b'\x0C' => backslashed(b'f'),
            0..=0x1F => {
                let (high, low) = (
                    high_digit(Case::Upper, letter),
                    low_digit(Case::Upper, letter),
                );
                Word::of_six([b'\\', b'u', b'0', b'0', high, low])
            }
            _ => Word::of_one(letter),
        }
    }

    fn is_bare(&self, letter: u8) -> bool {
        match letter {
            b'"' | b'\\' => false,
            _ => letter >= b' ',
        }
    }
}

impl Apart for NginxJson {
    ghost apart = { λ _. json_code.apart };
}
