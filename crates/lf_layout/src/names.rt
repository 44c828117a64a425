//! Names of months, by their letters. Months count from 0 here.

ghost use Rattle.std.specs.Prelude.{◌≡◌, ◌<◌, ◌≤◌, Option, IfSome};
ghost use Rattle.lf_layout.specs.Texts.{month_letter as month_letter_of};
ghost use Rattle.lf_layout.specs.Names.{first_month, has_letters as has_letters_of, month_of_name as month_of_name_of};
ghost use Rattle.lf_layout.specs.Places.{starts_name, goes_on as goes_on_of, ends_name};

const LETTERS: &[u8] = b"JanFebMarAprMayJunJulAugSepOctNovDec";

/// A letter of a month's name, from 0.
#[tactic(auto, unfolding(crate::specs::Texts::month_letter))]
pub fn month_letter(month: u32, at: u32) -> u8
    requires month { month < 12 }
    requires at { at < 3 }
    ensures { result ≡ month_letter_of month at }
{
    LETTERS[(3 * month + at) as usize]
}

/// Whether the month's name begins with the letter.
fn starts(letter: u8, month: u32) -> bool
    requires { month < 12 }
    ensures { result ≡ starts_name letter month }
{
    month_letter(month, 0) == letter
}

/// Whether the month has the first letter of the other, and then this one.
fn goes_on(other: u32, letter: u8, month: u32) -> bool
    requires other { other < 12 }
    requires month { month < 12 }
    ensures { result ≡ goes_on_of other letter month }
{
    month_letter(month, 0) == month_letter(other, 0) && month_letter(month, 1) == letter
}

/// Whether the month has these three letters.
fn has_letters(first: u8, second: u8, third: u8, month: u32) -> bool
    requires { month < 12 }
    ensures { result ≡ has_letters_of first second third month }
{
    month_letter(month, 0) == first
        && month_letter(month, 1) == second
        && month_letter(month, 2) == third
}

/// The first month whose name begins with the letter.
pub fn starting(letter: u8) -> Option<u32>
    ensures first { result ≡ first_month (starts_name letter) 12 0 }
    ensures most { IfSome result (λ month. month < 12) }
{
    for month in 0..12 {
        if starts(letter, month) {
            return Some(month);
        }
    }
    None
}

/// The first month that has the first letter of the other, and then this one.
pub fn going_on(other: u32, letter: u8) -> Option<u32>
    requires { other < 12 }
    ensures first { result ≡ first_month (goes_on_of other letter) 12 0 }
    ensures most { IfSome result (λ month. month < 12) }
{
    for month in 0..12 {
        if goes_on(other, letter, month) {
            return Some(month);
        }
    }
    None
}

/// The first month with these letters.
fn named(first: u8, second: u8, third: u8) -> Option<u32>
    ensures first { result ≡ first_month (has_letters_of first second third) 12 0 }
    ensures most { IfSome result (λ month. month < 12) }
{
    for month in 0..12 {
        if has_letters(first, second, third, month) {
            return Some(month);
        }
    }
    None
}

/// The first month that has the first two letters of the other, and then this one.
pub fn ending(other: u32, letter: u8) -> Option<u32>
    requires { other < 12 }
    ensures first { result ≡ first_month (ends_name other letter) 12 0 }
    ensures most { IfSome result (λ month. month < 12) }
{
    named(month_letter(other, 0), month_letter(other, 1), letter)
}

/// The month with these letters, and 0 where there is none.
#[tactic(auto, unfolding(crate::specs::Names::month_of_name))]
pub fn month_of_name(first: u8, second: u8, third: u8) -> u32
    ensures exact { result ≡ month_of_name_of first second third }
    ensures most { result < 12 }
{
    match named(first, second, third) {
        Some(month) => month,
        None => 0,
    }
}
