//! The size of a format, which bounds the points of its machine.

ghost use Rattle.std.specs.Prelude.{◌≡◌, ◌+◌, ◌*◌, ◌≤◌, length};
ghost use Rattle.lf_limits.specs.Limits.{most_slots, most_literal_bytes};
ghost use Rattle.lf_format.specs.Keeps.{slots_in, literal_bytes};
ghost use Rattle.lf_format.specs.Kinds.{kind_size};
ghost use Rattle.lf_escape.specs.Codings.{prefixes_of};
ghost use Rattle.lf_format.specs.Size.{pieces_size, size_of};

use crate::format::{Format, Piece};
use crate::kind::Kind;
use lf_core::Domain;
use lf_escape::Coding;

impl Format {
    /// A bound on the points of the format's machine, known before the machine is built.
    pub fn size(&self) -> u64
        ensures { result ≡ size_of self.now.pieces }
    {
        sum_sizes(self.pieces()) + 2
    }
}

/// The sizes of the pieces, summed.
fn sum_sizes(pieces: &[Piece]) -> u64
    requires few { length (slots_in pieces.now) ≤ most_slots }
    requires short { literal_bytes pieces.now ≤ most_literal_bytes }
    ensures exact { result ≡ pieces_size pieces.now }
    ensures most { result ≤ literal_bytes pieces.now + 68719476739 * length (slots_in pieces.now) }
{
    match pieces.split_first() {
        None => 0,
        Some((Piece::Literal(text), rest)) => text.len() as u64 + sum_sizes(rest),
        Some((Piece::Slot(slot), rest)) => {
            kind_size_of(&slot.kind) as u64 * prefix_count(slot.code) as u64 + 3 + sum_sizes(rest)
        }
    }
}

/// The size of the domain, which is the number of its machine's points where it isn't one of times.
fn kind_size_of(kind: &Kind) -> u32
    ensures { result ≡ kind_size kind.now }
{
    match kind {
        Kind::Clf(_) | Kind::Iso(_) | Kind::IsoMillis(_) | Kind::Ha(_) => 300,
        Kind::Date(_) | Kind::Clock(_) => 300,
        _ => kind.points(),
    }
}

/// How many proper prefixes the words of the code have, the empty one counted.
fn prefix_count(code: Coding) -> u32
    ensures exact { result ≡ prefixes_of code }
    ensures most { result ≤ 16 }
{
    match code {
        Coding::Raw | Coding::PlusSpace => 1,
        Coding::HaEscape | Coding::Doubled => 2,
        Coding::NginxJson => 7,
        Coding::ApacheHex | Coding::HaHash | Coding::HaCapture => 14,
        Coding::NginxHex => 16,
    }
}
