//! The bytes of a directive.

ghost use Rattle.std.specs.Prelude.{◌≡◌};
ghost use Rattle.nginx_front.specs.Bytes.{is_white, is_name_byte, is_quote, is_special, is_bare, escaped};

use crate::variable::is_word_byte;

/// Space, tab, CR and LF.
pub fn is_white_byte(b: u8) -> bool
    ensures { result ≡ is_white b }
{
    b" \t\r\n".iter().any(|c| b == *c)
}

/// A byte of a format's name.
pub fn is_format_name_byte(b: u8) -> bool
    ensures { result ≡ is_name_byte b }
{
    is_word_byte(b) || b == b'-' || b == b'.'
}

/// `"` and `'`.
pub fn is_quote_byte(b: u8) -> bool
    ensures { result ≡ is_quote b }
{
    b == b'"' || b == b'\''
}

fn is_special_byte(b: u8) -> bool
    ensures { result ≡ is_special b }
{
    is_white_byte(b) || b";\"'\\".iter().any(|c| b == *c)
}

/// Whether the byte may stand in a bare string.
pub fn is_bare_byte(b: u8) -> bool
    ensures { result ≡ is_bare b }
{
    !is_special_byte(b)
}

/// What a backslash in quotes and this byte give.
pub fn escaped_byte(b: u8) -> Option<u8>
    ensures { result ≡ escaped b }
{
    match b {
        b'"' => Some(b'"'),
        b'\'' => Some(b'\''),
        b'\\' => Some(b'\\'),
        b't' => Some(b'\t'),
        b'r' => Some(b'\r'),
        b'n' => Some(b'\n'),
        _ => None,
    }
}
