//! A stream is fed.

ghost use Rattle.std.specs.Prelude.{◌≡◌, false};
ghost use Rattle.lf_stream.specs.Standing.{is_finished};

use lf_limits::MOST_RUN_BYTES;
use lf_stream::Lines;

/// Feeds a piece, if it fits.
pub(crate) fn feed(lines: &mut Lines, piece: &[u8])
    requires { is_finished lines.old ≡ false }
    ensures { is_finished lines.new ≡ false }
{
    if piece.len() <= lines.room() && piece.len() as u64 <= MOST_RUN_BYTES - lines.fed() {
        lines.feed(piece);
    }
}
