//! The strings of a field map.

ghost use Rattle.std.specs.Prelude.{◌≡◌, ◌++◌, [], IfOk, OnOk};
ghost use Rattle.lf_syntax.specs.Leaf.{hex_value};
ghost use Rattle.lf_map.specs.Letters.{letter_by, stage_after, is_end, with_letter, letters_of, after_string};
ghost use Rattle.lf_map.specs.declared.strings.Stage.TheVariants.{Fresh as fresh};

use lf_core::{Bytes, OutOfMemory};
use std::alloc::Global;

/// How much of a letter has been read: nothing, its backslash, `\x`, or that and a digit's value.
#[derive(Clone, Copy)]
pub(crate) enum Stage {
    Fresh,
    Slash,
    Cross,
    Digit(u8),
}

impl Stage {
    /// The letter that the byte ends.
    fn letter(self, byte: u8) -> Option<u8>
        ensures { result ≡ letter_by self byte }
    {
        match self {
            Stage::Fresh => if byte == b'\\' { None } else { Some(byte) }
            Stage::Slash => if byte == b'x' { None } else { Some(byte) }
            Stage::Cross => None,
            Stage::Digit(high) => Some((16 * high as u16 + hex_value(byte) as u16).min(255) as u8),
        }
    }

    fn after(self, byte: u8) -> Stage
        ensures { result ≡ stage_after self byte }
    {
        match self {
            Stage::Fresh => if byte == b'\\' {
                Stage::Slash
            } else {
                Stage::Fresh
            }
            Stage::Slash => if byte == b'x' {
                Stage::Cross
            } else {
                Stage::Fresh
            }
            Stage::Cross => Stage::Digit(hex_value(byte)),
            Stage::Digit(_) => Stage::Fresh,
        }
    }

    fn is_end(self, byte: u8) -> bool
        ensures { result ≡ is_end self byte }
    {
        match self {
            Stage::Fresh => byte == b'"',
            _ => false,
        }
    }
}

fn hex_value(byte: u8) -> u8
    ensures { result ≡ hex_value byte }
{
    if 48 <= byte && byte <= 57 {
        return byte - 48;
    }
    if 97 <= byte && byte <= 102 {
        return byte - 87;
    }
    if 65 <= byte && byte <= 70 {
        return byte - 55;
    }
    16
}

/// A string that a text begins with after its opening quote, and what follows its closing one.
#[derive(Drop)]
pub(crate) struct Unquoted<'a> {
    pub(crate) letters: Bytes,
    pub(crate) rest: &'a [u8],
}

/// Appends the letter, if there is one.
fn push_some(letter: Option<u8>, into: &mut Bytes) -> Result<(), OutOfMemory>
    ensures { OnOk result (into.new ≡ into.old ++ with_letter letter []) }
{
    match letter {
        None => Ok(()),
        Some(letter) => into.push(letter),
    }
}

pub(crate) fn read_string(alloc: Global, text: &[u8]) -> Result<Unquoted, OutOfMemory>
    ensures letters { IfOk result (λ read. read.letters ≡ letters_of fresh text.now) }
    ensures rest { IfOk result (λ read. read.rest.now ≡ after_string fresh text.now) }
{
    let mut letters = Bytes::new(alloc);
    let mut stage = Stage::Fresh;
    let mut rest = text;
    'letters: loop {
        let Some((byte, more)) = rest.split_first() else {
            return Ok(Unquoted { letters, rest });
        };
        if stage.is_end(*byte) {
            return Ok(Unquoted {
                letters,
                rest: more,
            });
        }
        push_some(stage.letter(*byte), &mut letters)?;
        stage = stage.after(*byte);
        rest = more;
    }
}
