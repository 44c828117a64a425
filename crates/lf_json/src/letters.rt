//! The letters of a JSON string.
ghost use Rattle.std.specs.Prelude.{◌≡◌, ◌<◌, ◌≤◌, ℕ, ◌++◌, [], ◌∷◌, false, length, slice_index, OnOk, OnErr};
ghost use Rattle.std.specs.List.{flat_map};
ghost use Rattle.hex.specs.Hex.{lower_digits, encode_lower};
ghost use Rattle.lf_core.specs.Adds.{AddsFront};
ghost use Rattle.lf_json.specs.Text.{json_letter, is_escaped, escape_letter as escape_of};

use lf_core::{Bytes, OutOfMemory};

/// The lower-case hexadecimal digit of a number below 16.
fn hex_digit(number: u8) -> u8
    requires { number < 16 }
    ensures { result ≡ slice_index lower_digits number }
{
    b"0123456789abcdef"[usize::from(number)]
}

/// Appends a byte as two hexadecimal digits.
#[tactic(auto, unfolding(hex::specs::Hex::encode_with))]
pub(crate) fn write_digits(byte: u8, into: &mut Bytes) -> Result<(), OutOfMemory>
    ensures ok { OnOk result (into.new ≡ into.old ++ encode_lower (byte ∷ [])) }
    ensures err { OnErr result (into.new ≡ into.old) }
{
    into.extend(&[hex_digit(byte / 16), hex_digit(byte % 16)])
}

/// The byte that stands behind a backslash, or 0 where the byte has no such escape.
fn escape_letter(byte: u8) -> u8
    ensures { result ≡ escape_of byte }
{
    match byte {
        b'"' | b'\\' => byte,
        8 => b'b',
        12 => b'f',
        b'\n' => b'n',
        b'\r' => b'r',
        b'\t' => b't',
        _ => 0,
    }
}

/// Appends what stands for one byte.
#[tactic(auto, unfolding(crate::specs::Text::json_letter, hex::specs::Hex::encode_with))]
fn write_letter(byte: u8, into: &mut Bytes) -> Result<(), OutOfMemory>
    ensures ok { OnOk result (into.new ≡ into.old ++ json_letter byte) }
    ensures err { OnErr result (into.new ≡ into.old) }
{
    let escape = escape_letter(byte);
    if escape != 0 {
        return into.extend(&[b'\\', escape]);
    }
    if 32 <= byte {
        return into.push(byte);
    }
    into.extend(&[
        b'\\',
        b'u',
        b'0',
        b'0',
        hex_digit(byte / 16),
        hex_digit(byte % 16),
    ])
}

/// How many bytes stand as they are before the first that has an escape.
fn bare_len(text: &[u8]) -> usize
    ensures within { result ≤ length text.now }
    ensures bare { (k : ℕ) → k < result → is_escaped (slice_index text.now k) ≡ false }
{
    for (at, byte) in text.iter().enumerate() {
        if *byte < 32 || (*byte == b'"' || *byte == b'\\') {
            return at;
        }
    }
    text.len()
}

/// Appends the letters: runs that stand as they are whole, and each other byte by itself.
pub(crate) fn write_letters(text: &[u8], into: &mut Bytes) -> Result<(), OutOfMemory>
    ensures ok { OnOk result (into.new ≡ into.old ++ flat_map json_letter text.now) }
    ensures err { OnErr result (AddsFront into.old into.new (flat_map json_letter text.now)) }
{
    let mut rest = text;
    'runs: while !rest.is_empty() {
        let (run, more) = rest.split_at(bare_len(rest));
        into.extend(run)?;
        let Some((byte, after)) = more.split_first() else {
            return Ok(());
        };
        write_letter(*byte, into)?;
        rest = after;
    }
    Ok(())
}
