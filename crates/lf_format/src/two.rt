//! Absence told from a lone dash.

ghost use Rattle.std.specs.Prelude.{◌≡◌, ◌↔◌, ◌⊎◌, ℕ, List};
ghost use Rattle.lf_core.specs.declared.values.Value.{Value};
ghost use Rattle.lf_format.specs.declared.format.Piece.{Piece as OnePiece};
ghost use Rattle.lf_format.specs.declared.slot.Slot.{Slot};
ghost use Rattle.lf_format.specs.Keeps.{KeepsFormat};
ghost use Rattle.lf_format.specs.Lines.{Prints};
ghost use Rattle.lf_format.specs.Shape.{Shape};
ghost use Rattle.lf_format.specs.Size.{size_of};
ghost use Rattle.lf_format.specs.Slots.{Holds};
ghost use Rattle.lf_format.specs.Two.{absence_with_two, slot_with_two, pieces_with_two, with_two, IsLoneDash};

use crate::format::Piece;
use crate::slot::Absent;

/// The absence that leaves room for a value that is printed as `-`.
fn two_of(absent: Absent) -> Absent
    ensures { result ≡ absence_with_two absent }
{
    match absent {
        Absent::Dash => Absent::DashTwo,
        Absent::No | Absent::DashTwo | Absent::Blank => absent,
    }
}

/// Puts `DashTwo` in place of every `Dash`.
pub(crate) fn tell_apart(pieces: &mut [Piece])
    ensures { pieces.new ≡ pieces_with_two pieces.old }
{
    let Some((piece, rest)) = pieces.split_first_mut() else {
        return;
    };
    if let Piece::Slot(slot) = piece {
        slot.absent = two_of(slot.absent);
    }
    tell_apart(rest);
}

/// With `DashTwo` in place of every `Dash`, a format keeps what it kept, and has the same size.
pub fn two_keeps()
    ensures keeps { (format : Shape) → KeepsFormat format.pieces → KeepsFormat (with_two format).pieces }
    ensures size { (format : Shape) → size_of (with_two format).pieces ≡ size_of format.pieces }
{}

/// Then a slot holds what it held, and the lone dash that it took for absence; and a line's records stay its records.
pub fn two_holds_the_dash()
    ensures held { (slot : Slot) (value : Value) → Holds (slot_with_two slot) value ↔ (Holds slot value ⊎ IsLoneDash slot value) }
    ensures printed { (pieces : List OnePiece) (rec : List Value) (line : List ℕ) → Prints pieces rec line → Prints (pieces_with_two pieces) rec line }
{}
