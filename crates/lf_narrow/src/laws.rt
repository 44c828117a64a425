//! The laws of narrowings.

ghost use Rattle.std.specs.Prelude.{◌≡◌, ℕ, ◌↔◌, List, Some};
ghost use Rattle.lf_core.specs.declared.values.Value.{Value};
ghost use Rattle.lf_format.specs.declared.slot.Slot.{Slot};
ghost use Rattle.lf_format.specs.Keeps.{KeepsFormat};
ghost use Rattle.lf_format.specs.Shape.{Shape};
ghost use Rattle.lf_format.specs.Slots.{Holds};
ghost use Rattle.lf_narrow.specs.Terms.{Rule};
ghost use Rattle.lf_narrow.specs.Fits.{FitsRule};
ghost use Rattle.lf_narrow.specs.Effects.{Allows, narrowed_slot};
ghost use Rattle.lf_narrow.specs.Narrowed.{NarrowsTo, HasOneAnswer};

/// A text narrows a format to one format, or it has one first fault.
pub fn one_answer()
    ensures { (format : Shape) (text : List ℕ) → HasOneAnswer format text }
{
    lf_syntax::one_of_two();
}

/// What a text narrows a format to keeps what a format keeps.
pub fn narrowed_keeps()
    ensures { (format narrowed : Shape) (text : List ℕ) → KeepsFormat format.pieces → NarrowsTo format text narrowed → KeepsFormat narrowed.pieces }
{}

/// After a rule a slot holds exactly the values that it held before and that the rule allows.
pub fn holds_what_is_allowed()
    ensures { (rule : Rule) (slot after : Slot) (value : Value) → FitsRule rule → narrowed_slot rule slot ≡ Some after
        → Holds after value ↔ (Holds slot value × Allows rule slot.kind value) }
{}
