//! A code by its name.

ghost use Rattle.std.specs.Prelude.{◌≡◌};
ghost use Rattle.std.specs.List.{prefix_len};
ghost use Rattle.lf_escape.specs.Codes.{is_bare};
ghost use Rattle.lf_escape.specs.Codings.{coding_word};

use crate::apache_hex::ApacheHex;
use crate::code::Code;
use crate::doubled::Doubled;
use crate::ha_capture::HaCapture;
use crate::ha_escape::HaEscape;
use crate::ha_hash::HaHash;
use crate::nginx_hex::NginxHex;
use crate::nginx_json::NginxJson;
use crate::plus_space::PlusSpace;
use crate::raw::Raw;
use crate::word::Word;

/// The code in which a slot writes the letters of a plain text.
#[derive(Clone, Copy, Debug, PartialEq, Eq)]
pub enum Coding {
    /// Each letter stands for itself.
    Raw,
    /// Apache: a backslash and a letter, or `\x` and two lower-case digits.
    ApacheHex,
    /// nginx: `\x` and two upper-case digits.
    NginxHex,
    /// nginx with `escape=json`: as in a JSON string.
    NginxJson,
    /// HAProxy: `#` and two upper-case digits.
    HaHash,
    /// The captured headers of HAProxy: the same, braces and bars too, and a bar for a line feed.
    HaCapture,
    /// HAProxy with the flag E: a backslash before a double quote, a backslash and `]`.
    HaEscape,
    /// IIS: a plus sign for a space.
    PlusSpace,
    /// The W3C's draft: two double quotes for one.
    Doubled,
}

impl Code for Coding {
    ghost use Rattle.lf_escape.specs.Codings.{coding_takes, coding_word, coding_laws};

    ghost can_take = { coding_takes };

    ghost word = { coding_word };

    ghost laws = { coding_laws };

    fn takes(&self, letter: u8) -> bool {
        match self {
            Coding::Raw => Raw.takes(letter),
            Coding::ApacheHex => ApacheHex.takes(letter),
            Coding::NginxHex => NginxHex.takes(letter),
            Coding::NginxJson => NginxJson.takes(letter),
            Coding::HaHash => HaHash.takes(letter),
            Coding::HaCapture => HaCapture.takes(letter),
            Coding::HaEscape => HaEscape.takes(letter),
            Coding::PlusSpace => PlusSpace.takes(letter),
            Coding::Doubled => Doubled.takes(letter),
        }
    }

    fn word_of(&self, letter: u8) -> Word {
        match self {
            Coding::Raw => Raw.word_of(letter),
            Coding::ApacheHex => ApacheHex.word_of(letter),
            Coding::NginxHex => NginxHex.word_of(letter),
            Coding::NginxJson => NginxJson.word_of(letter),
            Coding::HaHash => HaHash.word_of(letter),
            Coding::HaCapture => HaCapture.word_of(letter),
            Coding::HaEscape => HaEscape.word_of(letter),
            Coding::PlusSpace => PlusSpace.word_of(letter),
            Coding::Doubled => Doubled.word_of(letter),
        }
    }

    fn is_bare(&self, letter: u8) -> bool {
        match self {
            Coding::Raw => Raw.is_bare(letter),
            Coding::ApacheHex => ApacheHex.is_bare(letter),
            Coding::NginxHex => NginxHex.is_bare(letter),
            Coding::NginxJson => NginxJson.is_bare(letter),
            Coding::HaHash => HaHash.is_bare(letter),
            Coding::HaCapture => HaCapture.is_bare(letter),
            Coding::HaEscape => HaEscape.is_bare(letter),
            Coding::PlusSpace => PlusSpace.is_bare(letter),
            Coding::Doubled => Doubled.is_bare(letter),
        }
    }
}

impl Coding {
    /// How many letters at the front of the text are their own words.
    pub fn bare_len(&self, text: &[u8]) -> usize
        ensures { result ≡ prefix_len (is_bare (coding_word self.now)) text.now }
    {
        match self {
            Coding::Raw => bare_run(&Raw, text),
            Coding::ApacheHex => bare_run(&ApacheHex, text),
            Coding::NginxHex => bare_run(&NginxHex, text),
            Coding::NginxJson => bare_run(&NginxJson, text),
            Coding::HaHash => bare_run(&HaHash, text),
            Coding::HaCapture => bare_run(&HaCapture, text),
            Coding::HaEscape => bare_run(&HaEscape, text),
            Coding::PlusSpace => bare_run(&PlusSpace, text),
            Coding::Doubled => bare_run(&Doubled, text),
        }
    }
}

/// How many letters at the front of the text are their own words under the code.
fn bare_run<C: Code>(code: &C, text: &[u8]) -> usize
    ensures { result ≡ prefix_len (is_bare (C.word code.now)) text.now }
{
    text.iter()
        .take_while(|letter| code.is_bare(**letter))
        .count()
}
