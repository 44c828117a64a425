//! The parts of a field map's text, and what comes after a byte of it.

ghost use Rattle.std.specs.Prelude.{◌≡◌, ◌≤◌, drop, take, length};
ghost use Rattle.lf_syntax.specs.Cuts.{from_first};
ghost use Rattle.lf_map.specs.Letters.{mode_after, is_cut, front_part, after_part};
ghost use Rattle.lf_map.specs.declared.parts.Mode.TheVariants.{Outside as outside};

use lf_expression::cut_before;

/// Whether a text goes on outside of strings, in one, or after a backslash in one.
#[derive(Clone, Copy)]
pub(crate) enum Mode {
    Outside,
    Inside,
    Escaped,
}

impl Mode {
    fn after(self, byte: u8) -> Mode
        ensures { result ≡ mode_after self byte }
    {
        match self {
            Mode::Outside => if byte == b'"' {
                Mode::Inside
            } else {
                Mode::Outside
            }
            Mode::Inside => {
                if byte == b'"' {
                    return Mode::Outside;
                }
                if byte == b'\\' {
                    Mode::Escaped
                } else {
                    Mode::Inside
                }
            }
            Mode::Escaped => Mode::Inside,
        }
    }

    fn is_cut(self, byte: u8) -> bool
        ensures { result ≡ is_cut self byte }
    {
        match self {
            Mode::Outside => byte == b';',
            _ => false,
        }
    }
}

/// How many bytes come before the first `;` outside of strings.
fn part_length(text: &[u8]) -> usize
    ensures within { result ≤ length text.now }
    ensures front { take result text.now ≡ front_part outside text.now }
    ensures rest { drop result text.now ≡ after_part outside text.now }
{
    let mut mode = Mode::Outside;
    for (i, byte) in text.iter().enumerate() {
        if mode.is_cut(*byte) {
            return i;
        }
        mode = mode.after(*byte);
    }
    text.len()
}

/// The text cut before the first `;` outside of strings.
pub(crate) fn cut_part(text: &[u8]) -> (&[u8], &[u8])
    ensures front { result.0.now ≡ front_part outside text.now }
    ensures rest { result.1.now ≡ after_part outside text.now }
{
    text.split_at(part_length(text))
}

/// The text after its first byte.
pub(crate) fn past_first(text: &[u8]) -> &[u8]
    ensures { result.now ≡ drop 1 text.now }
{
    match text.split_first() {
        None => text,
        Some((_first, rest)) => rest,
    }
}

/// The text after the first such byte.
pub(crate) fn past(byte: u8, text: &[u8]) -> &[u8]
    ensures { result.now ≡ drop 1 (from_first byte text.now) }
{
    past_first(cut_before(byte, text).1)
}
