//! Decimal digits, and the numbers that they write.
ghost use Rattle.std.specs.Prelude.{◌≡◌, ◌≤◌, ◌<◌, ◌-◌, ◌^◌, ◌+◌, ◌++◌, ◌∷◌, [], ℕ, true, false, min, replicate, length, slice_index, IfSome};
ghost use Rattle.std.specs.List.{list_all};
ghost use Rattle.lf_number.specs.Machines.{value_after};
ghost use Rattle.lf_number.specs.Numbers.{is_decimal_digit, last_digits, number_text};

/// How many digits the text begins with.
fn digits_len(text: &[u8]) -> usize
    ensures within { result ≤ length text.now }
    ensures digits { (k : ℕ) → k < result → is_decimal_digit (slice_index text.now k) ≡ true }
{
    for (at, byte) in text.iter().enumerate() {
        if *byte < b'0' || b'9' < *byte {
            return at;
        }
    }
    text.len()
}

/// The number so far with one digit more, or the greatest where it is greater.
#[tactic(auto, unfolding(lf_number::specs::Numbers::digit_of))]
fn with_digit(value: u64, digit: u8) -> u64
    requires { is_decimal_digit digit ≡ true }
    ensures { result ≡ min (value_after 10 value (digit ∷ [])) (2 ^ 64 - 1) }
{
    value
        .saturating_mul(10)
        .saturating_add(u64::from(digit - b'0'))
}

/// The number that the digits write, or the greatest where it is greater.
fn value_of(digits: &[u8]) -> u64
    requires { list_all is_decimal_digit digits.now ≡ true }
    ensures { result ≡ min (value_after 10 0 digits.now) (2 ^ 64 - 1) }
{
    let mut value = 0;
    for digit in digits {
        value = with_digit(value, *digit);
    }
    value
}

/// The number whose text the digits are.
fn number_of(digits: &[u8]) -> Option<i64>
    requires { list_all is_decimal_digit digits.now ≡ true }
    ensures { IfSome result (λ n. number_text n ≡ digits.now) }
{
    let (first, more) = digits.split_first()?;
    if *first == b'0' {
        return if more.is_empty() { Some(0) } else { None };
    }
    let value = value_of(digits);
    if value < 1 << 63 {
        Some(value as i64)
    } else {
        None
    }
}

/// The number whose text the digits at the front are, these digits, and what follows them.
pub(crate) fn front_number(text: &[u8]) -> Option<(i64, &[u8], &[u8])>
    ensures digits { IfSome result (λ found. number_text found.0 ≡ found.1.now) }
    ensures parts { IfSome result (λ found. text.now ≡ found.1.now ++ found.2.now) }
{
    let (digits, left) = text.split_at(digits_len(text));
    let number = number_of(digits)?;
    Some((number, digits, left))
}

/// How many zeros the text begins with, at most so many.
fn zeros_len(most: usize, text: &[u8]) -> usize
    ensures within { result ≤ length text.now }
    ensures zeros { (k : ℕ) → k < result → slice_index text.now k ≡ 48 }
{
    for (at, byte) in text.iter().enumerate() {
        if *byte != b'0' || most <= at {
            return at;
        }
    }
    text.len()
}

/// How many zeros the text begins with, at most so many, and what follows them.
pub(crate) fn front_zeros(most: usize, text: &[u8]) -> (usize, &[u8])
    ensures { text.now ≡ replicate result.0 48 ++ result.1.now }
{
    let zeros = zeros_len(most, text);
    (zeros, text.split_at(zeros).1)
}

/// The value of the digit, and what follows it.
fn one_digit(text: &[u8]) -> Option<(u16, &[u8])>
    ensures { IfSome result (λ found. (found.0 < 10) × (text.now ≡ (48 + found.0) ∷ found.1.now)) }
{
    let (first, left) = text.split_first()?;
    if *first < b'0' || b'9' < *first {
        return None;
    }
    Some((u16::from(*first - b'0'), left))
}

/// The number of three digits, and what follows them.
pub(crate) fn three_digits(text: &[u8]) -> Option<(u16, &[u8])>
    ensures { IfSome result (λ found. (found.0 < 1000) × (text.now ≡ last_digits 10 3 found.0 ++ found.1.now)) }
{
    let (hundreds, more) = one_digit(text)?;
    let (tens, more) = one_digit(more)?;
    let (ones, left) = one_digit(more)?;
    Some((100 * hundreds + 10 * tens + ones, left))
}

/// What follows the byte.
pub(crate) fn after_byte(byte: u8, text: &[u8]) -> Option<&[u8]>
    ensures { IfSome result (λ left. text.now ≡ byte ∷ left.now) }
{
    let (first, left) = text.split_first()?;
    if *first == byte { Some(left) } else { None }
}
