//! Digits of numbers in a radix.

ghost use Rattle.std.specs.Prelude.{◌≡◌, ◌+◌, ◌-◌, ◌≤◌, ◌^◌, ◌++◌, [], ◌∷◌, length, min, drop};
ghost use Rattle.lf_number.specs.Numbers.{IsRadix, digit_letter as digit_letter_of, digit_of as digit_of_letter, digits, last_digits, width as width_of};
ghost use Rattle.lf_number.specs.Machines.{front as front_of, value_after};

/// The digit that a letter stands for, and 16 where it stands for none.
#[tactic(auto, unfolding(crate::specs::Numbers::digit_of))]
pub fn digit_of(letter: u8) -> u64
    ensures exact { result ≡ digit_of_letter letter }
    ensures most { result ≤ 16 }
{
    if letter >= b'0' && letter <= b'9' {
        return (letter - b'0') as u64;
    }
    if letter >= b'A' && letter <= b'F' {
        return (letter - 55) as u64;
    }
    16
}

/// The letter of a digit.
#[tactic(auto, unfolding(crate::specs::Numbers::digit_letter))]
fn digit_letter(digit: u64) -> u8
    requires { digit ≤ 15 }
    ensures { result ≡ digit_letter_of digit }
{
    if digit < 10 {
        b'0' + digit as u8
    } else {
        55 + digit as u8
    }
}

/// How many digits the number has.
pub fn width(radix: u64, number: u64) -> u32
    requires { IsRadix radix }
    ensures exact { result ≡ width_of radix number }
    ensures least { 1 ≤ result }
    ensures most { result ≤ 20 }
{
    let top = number / radix;
    let mut digits = 1;
    let mut power = 1;
    while power <= top {
        power *= radix;
        digits += 1;
    }
    digits
}

/// The number without its last `digits` digits.
pub fn front(radix: u64, number: u64, digits: u32) -> u64
    requires { IsRadix radix }
    ensures { result ≡ front_of radix number digits }
{
    let mut rest = number;
    for _ in 0..digits {
        if rest == 0 {
            return 0;
        }
        rest /= radix;
    }
    rest
}

/// Puts the digits before the place in the buffer, and tells where they begin.
pub fn put_digits(radix: u64, number: u64, end: usize, buffer: &mut [u8]) -> usize
    requires radix_is { IsRadix radix }
    requires room { 21 ≤ end }
    requires inside { end ≤ length buffer.old }
    ensures digits { drop result buffer.new ≡ digits radix number ++ drop end buffer.old }
    ensures size { length buffer.new ≡ length buffer.old }
    ensures least { 1 ≤ result }
    ensures most { result ≤ end }
{
    let mut at = end;
    let mut rest = number;
    while rest >= radix {
        at -= 1;
        buffer[at] = digit_letter(rest % radix);
        rest /= radix;
    }
    at -= 1;
    buffer[at] = digit_letter(rest);
    at
}

/// Puts the last digits, so many of them, before the place in the buffer.
pub fn put_last(radix: u64, number: u64, count: usize, end: usize, buffer: &mut [u8])
    requires radix_is { IsRadix radix }
    requires room { count ≤ end }
    requires inside { end ≤ length buffer.old }
    ensures digits { drop (end - count) buffer.new ≡ last_digits radix count number ++ drop end buffer.old }
    ensures size { length buffer.new ≡ length buffer.old }
{
    let mut rest = number;
    for done in 0..count {
        buffer[end - 1 - done] = digit_letter(rest % radix);
        rest /= radix;
    }
}

/// The number so far with one letter more, or the greatest where it is greater.
fn with_letter(radix: u64, value: u64, letter: u8) -> u64
    requires { IsRadix radix }
    ensures { result ≡ min (value_after radix value (letter ∷ [])) (2 ^ 64 - 1) }
{
    let digit = digit_of(letter);
    if digit < radix {
        return value.saturating_mul(radix).saturating_add(digit);
    }
    value
}

/// The number that the digits of a text write, or the greatest where it is greater.
pub fn number_of(radix: u64, text: &[u8]) -> u64
    requires { IsRadix radix }
    ensures { result ≡ min (value_after radix 0 text.now) (2 ^ 64 - 1) }
{
    let mut value = 0;
    for letter in text {
        value = with_letter(radix, value, *letter);
    }
    value
}
