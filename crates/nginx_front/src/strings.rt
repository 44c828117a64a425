//! The strings of a directive, byte by byte.

ghost use Rattle.std.specs.Prelude.{◌≡◌, ◌+◌, ◌≤◌, ◌∷◌, ◌++◌, [], length, OnOk, IfOk};
ghost use Rattle.lf_limits.specs.Limits.{most_text_bytes};
ghost use Rattle.nginx_front.specs.Passes.{next, gives, mode_after, given_by};

use crate::bytes::{escaped_byte, is_bare_byte, is_quote_byte};
use lf_core::OutOfMemory;
use std::alloc::Global;

/// A byte of a format, and the place in the directive that gave it.
#[derive(Clone, Copy, Debug, PartialEq, Eq)]
pub struct Placed {
    pub byte: u8,
    pub place: u32,
}

/// Where the next byte stands: outside of quotes, in quotes that opened at a place, or there after a backslash.
#[derive(Clone, Copy, Debug, PartialEq, Eq)]
pub enum Mode {
    Outside,
    /// The quote, and the place where it opened.
    Quoted(u8, u32),
    /// The same quote and place; the byte before is a backslash.
    Backslash(u8, u32),
}

fn next(mode: Mode, place: u32, byte: u8) -> Mode
    ensures { result ≡ next mode place byte }
{
    match mode {
        Mode::Outside if is_quote_byte(byte) => Mode::Quoted(byte, place),
        Mode::Outside => Mode::Outside,
        Mode::Quoted(quote, _) if byte == quote => Mode::Outside,
        Mode::Quoted(quote, at) if byte == b'\\' => Mode::Backslash(quote, at),
        Mode::Quoted(quote, at) | Mode::Backslash(quote, at) => Mode::Quoted(quote, at),
    }
}

fn keep(given: &mut Vec<Placed>, byte: u8, place: u32) -> Result<(), OutOfMemory>
    ensures { OnOk result (given.new.items ≡ given.old.items ++ (record { byte = byte; place = place }) ∷ []) }
{
    given.push(Placed { byte, place })?;
    Ok(())
}

/// Adds what a byte gives.
fn give(given: &mut Vec<Placed>, mode: Mode, place: u32, byte: u8) -> Result<(), OutOfMemory>
    ensures { OnOk result (given.new.items ≡ given.old.items ++ gives mode place byte) }
{
    match mode {
        Mode::Outside => {
            if is_bare_byte(byte) {
                return keep(given, byte, place);
            }
            Ok(())
        }
        Mode::Quoted(quote, _) => {
            if byte == quote || byte == b'\\' {
                return Ok(());
            }
            keep(given, byte, place)
        }
        Mode::Backslash(_, _) => {
            let before = place.saturating_sub(1);
            if let Some(escaped) = escaped_byte(byte) {
                return keep(given, escaped, before);
            }
            keep(given, b'\\', before)?;
            keep(given, byte, before + 1)?;
            Ok(())
        }
    }
}

/// The bytes that a text from a place on gives, and where it ends.
pub fn strings(alloc: Global, text: &[u8], start: u32) -> Result<(Vec<Placed>, Mode), OutOfMemory>
    requires { start + length text.now ≤ most_text_bytes }
    ensures given { IfOk result (λ read. read.0.items ≡ given_by Mode.Outside start text.now) }
    ensures mode { IfOk result (λ read. read.1 ≡ mode_after Mode.Outside start text.now) }
{
    let mut given = Vec::new(alloc);
    let mut mode = Mode::Outside;
    let mut place = start;
    for byte in text {
        give(&mut given, mode, place, *byte)?;
        mode = next(mode, place, *byte);
        place += 1;
    }
    Ok((given, mode))
}
