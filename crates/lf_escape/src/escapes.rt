//! What the words of several codes are made of: hexadecimal digits, and bytes after a backslash or a hash.

ghost use Rattle.std.specs.Prelude.{◌≡◌, ◌<◌, ◌&&◌, ◌/◌, ◌%◌, nat_le};
ghost use Rattle.std.specs.Fmt.{digit_glyph};
ghost use Rattle.lf_escape.specs.Case.{is_upper};
ghost use Rattle.lf_escape.specs.Escapes.{backslash_hex as backslash_hex_of, backslashed as backslashed_of, is_printable as is_printable_of};
ghost use Rattle.lf_escape.specs.HaProxy.{hash_hex as hash_hex_of};

use crate::word::Word;

/// The case of hexadecimal digits.
#[derive(Clone, Copy)]
pub(crate) enum Case {
    Lower,
    Upper,
}

/// The hexadecimal digit of the number.
fn digit(case: Case, number: u8) -> u8
    requires { number < 16 }
    ensures { result ≡ digit_glyph (is_upper case) number }
{
    if number < 10 {
        return b'0' + number;
    }
    match case {
        Case::Lower => b'a' + (number - 10),
        Case::Upper => b'A' + (number - 10),
    }
}

/// The digit of the upper half of the byte.
pub(crate) fn high_digit(case: Case, letter: u8) -> u8
    ensures { result ≡ digit_glyph (is_upper case) (letter / 16) }
{
    digit(case, letter / 16)
}

/// The digit of the lower half of the byte.
pub(crate) fn low_digit(case: Case, letter: u8) -> u8
    ensures { result ≡ digit_glyph (is_upper case) (letter % 16) }
{
    digit(case, letter % 16)
}

/// `\x` and two digits.
pub(crate) fn backslash_hex(case: Case, letter: u8) -> Word
    ensures { result ≡ backslash_hex_of (is_upper case) letter }
{
    Word::of_four(
        b'\\',
        b'x',
        high_digit(case, letter),
        low_digit(case, letter),
    )
}

/// A hash and two upper-case digits.
pub(crate) fn hash_hex(letter: u8) -> Word
    ensures { result ≡ hash_hex_of letter }
{
    Word::of_three(
        b'#',
        high_digit(Case::Upper, letter),
        low_digit(Case::Upper, letter),
    )
}

/// A backslash and the byte.
pub(crate) fn backslashed(byte: u8) -> Word
    ensures { result ≡ backslashed_of byte }
{
    Word::of_two(b'\\', byte)
}

/// A space to a tilde.
pub(crate) fn is_printable(letter: u8) -> bool
    ensures { result ≡ is_printable_of letter }
{
    (b' '..=b'~').contains(&letter)
}
