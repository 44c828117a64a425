//! The length of a command: the most letters that its text may have.

ghost use Rattle.std.specs.Prelude.{◌≡◌};
ghost use Rattle.envoy_front.specs.Length.{number_of, is_length as is_length_of};

/// The number that digits spell, and 65536 in the place of a greater one.
pub fn number(digits: &[u8]) -> u32
    ensures { result ≡ number_of digits.now }
{
    let mut value: u32 = 0;
    for b in digits {
        value = 10 * value + u32::from(b.saturating_sub(b'0'));
        if 65536 <= value {
            return 65536;
        }
    }
    value
}

/// Whether the digits spell a number from 1 to 65535 without leading zeros.
pub fn is_length(digits: &[u8]) -> bool
    ensures { result ≡ is_length_of digits.now }
{
    let Some((first, _rest)) = digits.split_first() else {
        return false;
    };
    *first != b'0' && number(digits) <= 65535
}
