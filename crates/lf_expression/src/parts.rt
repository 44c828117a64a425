//! A text cut at a byte.

ghost use Rattle.std.specs.Prelude.{◌≡◌, ◌≤◌, drop, take, length};
ghost use Rattle.lf_syntax.specs.Cuts.{front_of, from_first};

/// Where the first such byte is, or the text's length.
fn end_of(byte: u8, text: &[u8]) -> usize
    ensures within { result ≤ length text.now }
    ensures front { take result text.now ≡ front_of byte text.now }
    ensures rest { drop result text.now ≡ from_first byte text.now }
{
    for (i, one) in text.iter().enumerate() {
        if *one == byte {
            return i;
        }
    }
    text.len()
}

/// The text cut before the first such byte.
pub fn cut_before(byte: u8, text: &[u8]) -> (&[u8], &[u8])
    ensures front { result.0.now ≡ front_of byte text.now }
    ensures rest { result.1.now ≡ from_first byte text.now }
{
    text.split_at(end_of(byte, text))
}
