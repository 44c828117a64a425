//! Fields of two and three digits, and bytes between fields.
ghost use Rattle.std.specs.Prelude.{◌≡◌, ◌<◌, ◌+◌, ◌/◌, ◌%◌, ◌++◌, ◌∷◌, IfSome};
ghost use Rattle.lf_layout.specs.Texts.{two, three};

/// What follows the byte.
pub(crate) fn after_byte(byte: u8, text: &[u8]) -> Option<&[u8]>
    ensures { IfSome result (λ left. text.now ≡ byte ∷ left.now) }
{
    let (first, left) = text.split_first()?;
    if *first == byte { Some(left) } else { None }
}

/// The digit, and what follows it.
fn one_digit(text: &[u8]) -> Option<(u8, &[u8])>
    ensures { IfSome result (λ found. (found.0 < 10) × (text.now ≡ (48 + found.0) ∷ found.1.now)) }
{
    let (first, left) = text.split_first()?;
    if *first < b'0' || b'9' < *first {
        return None;
    }
    Some((*first - b'0', left))
}

/// The number of two digits, and what follows them.
pub(crate) fn two_digits(text: &[u8]) -> Option<(u8, &[u8])>
    ensures { IfSome result (λ found. (found.0 < 100) × (text.now ≡ two found.0 ++ found.1.now)) }
{
    let (tens, more) = one_digit(text)?;
    let (ones, left) = one_digit(more)?;
    Some((10 * tens + ones, left))
}

/// The number of three digits, and what follows them.
pub(crate) fn three_digits(text: &[u8]) -> Option<(u16, &[u8])>
    ensures { IfSome result (λ found. (found.0 < 1000) × (text.now ≡ three found.0 ++ found.1.now)) }
{
    let (hundreds, more) = one_digit(text)?;
    let (rest, left) = two_digits(more)?;
    Some((100 * u16::from(hundreds) + u16::from(rest), left))
}

/// The first of the two digits of a number.
pub(crate) fn tens(number: u8) -> u8
    requires { number < 100 }
    ensures { result ≡ 48 + number / 10 }
{
    b'0' + number / 10
}

/// The second of the two digits of a number.
pub(crate) fn ones(number: u8) -> u8
    requires { number < 100 }
    ensures { result ≡ 48 + number % 10 }
{
    b'0' + number % 10
}
