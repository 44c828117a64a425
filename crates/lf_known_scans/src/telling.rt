//! Readers by the texts of their formats.

use lf_compile::{Reader, compile};
use lf_fronts::parse;
use lf_limits::MOST_TEXT_BYTES;
use lf_narrow::narrow;
use lf_words::Front;
use std::alloc::Global;
use std::test::Fail;

/// The reader of the format, after it is narrowed by the second text, if that isn't empty.
pub(crate) fn reader_of(
    alloc: Global,
    front: Front,
    format: &str,
    narrowing: &str,
) -> Result<Reader, Fail> {
    if MOST_TEXT_BYTES < format.len() || MOST_TEXT_BYTES < narrowing.len() {
        return Err("too long".into());
    }
    let format = parse(alloc, front, format).ok().ok_or("no format")?;
    if narrowing.is_empty() {
        return Ok(compile(alloc, format).ok().ok_or("not readable")?);
    }
    let format = narrow(alloc, format, narrowing).ok().ok_or("nothing left")?;
    Ok(compile(alloc, format).ok().ok_or("not readable")?)
}
