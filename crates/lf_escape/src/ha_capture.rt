//! The code of HAProxy's captured headers.

ghost use Rattle.lf_escape.specs.Codes.{byte_takes};
ghost use Rattle.lf_escape.specs.HaProxy.{capture_word};
ghost use Rattle.lf_escape.specs.CodeLaws.{capture_code};

use crate::code::{Apart, Code};
use crate::escapes::hash_hex;
use crate::ha_hash::HaHash;
use crate::word::Word;

/// The escapes of HAProxy's captured headers, which bars part: a line feed is a bare bar.
#[derive(Clone, Copy, Debug, PartialEq, Eq)]
pub struct HaCapture;

impl Code for HaCapture {
    ghost can_take = { λ _. byte_takes };

    ghost word = { λ _. capture_word };

    ghost laws = { λ _. capture_code.laws };

    fn takes(&self, _letter: u8) -> bool {
        true
    }

    fn word_of(&self, letter: u8) -> Word {
        match letter {
            b'\n' => Word::of_one(b'|'),
            b'{' | b'|' | b'}' => hash_hex(letter),
            _ => HaHash.word_of(letter),
        }
    }

    fn is_bare(&self, letter: u8) -> bool {
        match letter {
            b'{' | b'|' | b'}' => false,
            _ => HaHash.is_bare(letter),
        }
    }
}

impl Apart for HaCapture {
    ghost apart = { λ _. capture_code.apart };
}
