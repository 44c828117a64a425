//! Letters read from their words. What is guessed of a word is checked by the code's own word.
ghost use Rattle.std.specs.Prelude.{◌≡◌, ◌++◌, true, IfOk, IfSome};
ghost use Rattle.lf_core.specs.Class.{is_letter};
ghost use Rattle.lf_escape.specs.Codings.{coding_word};
ghost use Rattle.lf_letters.specs.Decodes.{Decodes};

use crate::letters::Letters;
use crate::literals::after_literal;
use lf_core::{Bytes, Class, OutOfMemory};
use lf_escape::{Code, Coding};

/// The value of a hexadecimal digit; 0 for another byte.
fn hex_value(digit: u8) -> u8 {
    match digit {
        b'0'..=b'9' => digit - b'0',
        b'a'..=b'f' => digit - b'a' + 10,
        b'A'..=b'F' => digit - b'A' + 10,
        _ => 0,
    }
}

/// The byte of two hexadecimal digits.
fn hex_byte(high: u8, low: u8) -> u8 {
    hex_value(high).wrapping_mul(16) | hex_value(low)
}

/// The letter whose escape the text may begin with.
fn escaped(text: &[u8]) -> Option<u8> {
    match text {
        [b'\\', b'x', high, low, ..] => Some(hex_byte(*high, *low)),
        [b'\\', b'u', b'0', b'0', high, low, ..] => Some(hex_byte(*high, *low)),
        [b'\\', b'b', ..] => Some(8),
        [b'\\', b'f', ..] => Some(12),
        [b'\\', b'n', ..] => Some(10),
        [b'\\', b'r', ..] => Some(13),
        [b'\\', b't', ..] => Some(9),
        [b'\\', b'v', ..] => Some(11),
        [b'\\', letter, ..] => Some(*letter),
        [b'#', high, low, ..] => Some(hex_byte(*high, *low)),
        [b'+', ..] => Some(b' '),
        [b'|', ..] => Some(b'\n'),
        _ => None,
    }
}

/// What follows the letter's word, where the letter is of the class and the text begins with its word.
fn after_word<'a>(class: Class, code: Coding, letter: u8, text: &'a [u8]) -> Option<&'a [u8]>
    ensures { IfSome result (λ left. (is_letter class letter ≡ true) × (text.now ≡ coding_word code letter ++ left.now)) }
{
    if !class.has(letter) || !code.takes(letter) {
        return None;
    }
    let word = code.word_of(letter);
    after_literal(word.as_slice(), text)
}

/// The letter whose word the text begins with, and what follows the word.
fn next_letter<'a>(class: Class, code: Coding, text: &'a [u8]) -> Option<(u8, &'a [u8])>
    ensures { IfSome result (λ next. (is_letter class next.0 ≡ true) × (text.now ≡ coding_word code next.0 ++ next.1.now)) }
{
    let (first, _) = text.split_first()?;
    if let Some(left) = after_word(class, code, *first, text) {
        return Some((*first, left));
    }
    let letter = escaped(text)?;
    let left = after_word(class, code, letter, text)?;
    Some((letter, left))
}

/// Adds the letters of the words that the text begins with, as far as there are such before the byte that stops them;
/// tells what is left.
pub(crate) fn decode<'a>(
    by: &Letters,
    text: &'a [u8],
    letters: &mut Bytes,
) -> Result<&'a [u8], OutOfMemory>
    ensures { IfOk result (λ left. Decodes by.now.class by.now.code text.now left.now letters.old letters.new) }
{
    let mut left = text;
    'words: for _ in 0..text.len() {
        let (span, rest) = by.plain_front(left);
        letters.extend(span)?;
        if !by.goes_on(rest) {
            return Ok(rest);
        }
        let Some((letter, more)) = next_letter(by.class, by.code, rest) else {
            return Ok(rest);
        };
        letters.push(letter)?;
        left = more;
    }
    Ok(left)
}
