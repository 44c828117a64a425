//! What ends a line of a log.

ghost use Rattle.std.specs.Prelude.{◌≡◌};
ghost use Rattle.lf_log.specs.Ends.{end_text};

use lf_format::LineEnd;

/// What ends a line.
pub fn end_of(end: LineEnd) -> &'static [u8]
    ensures { result.now ≡ end_text end }
{
    match end {
        LineEnd::Lf => b"\n",
        LineEnd::CrLf => b"\r\n",
    }
}
