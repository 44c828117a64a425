//! The least letter of a class, by its word.

ghost use Rattle.std.specs.Prelude.{◌≡◌, ◌+◌, ◌<◌, true, IfSome};
ghost use Rattle.lf_escape.specs.Codings.{coding_takes};
ghost use Rattle.lf_gen.specs.Letters.{IsLeastLetter, letter_cmp};

use lf_core::Class;
use lf_escape::{Code, Coding};
use std::cmp::Ordering;

/// The letter of the class with the least word; of equal words, the lesser letter.
pub(crate) fn least_letter(code: Coding, class: Class) -> Option<u8>
    ensures { IsLeastLetter code class 256 result }
{
    let mut least = None;
    for letter in 0..256u16 {
        least = lesser_letter(code, class, least, letter as u8);
    }
    least
}

/// The least letter with one more looked at.
fn lesser_letter(code: Coding, class: Class, least: Option<u8>, letter: u8) -> Option<u8>
    requires { IfSome least (λ other. coding_takes code other ≡ true) }
    ensures { IsLeastLetter code class letter least → IsLeastLetter code class (letter + 1) result }
{
    if !class.has(letter) {
        return least;
    }
    if !code.takes(letter) {
        return least;
    }
    let Some(other) = least else {
        return Some(letter);
    };
    match compare_letters(code, letter, other) {
        Ordering::Less => Some(letter),
        _ => Some(other),
    }
}

/// Compares the letters by their words, and then by themselves.
fn compare_letters(code: Coding, letter: u8, other: u8) -> Ordering
    requires letter { coding_takes code letter ≡ true }
    requires other { coding_takes code other ≡ true }
    ensures { result ≡ letter_cmp code letter other }
{
    let word = code.word_of(letter);
    let other_word = code.word_of(other);
    let by_length = word.as_slice().len().cmp(&other_word.as_slice().len());
    let by_word = by_length.then(word.as_slice().cmp(other_word.as_slice()));
    by_word.then(letter.cmp(&other))
}
