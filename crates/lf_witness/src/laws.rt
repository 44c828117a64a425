//! Laws over the definitions alone, each the contract of a function that does nothing.

ghost use Rattle.std.specs.Prelude.{◌⊎◌, ℕ, List};
ghost use Rattle.lf_core.specs.declared.marked.Move.{Move};
ghost use Rattle.lf_core.specs.Marked.{Machine, IsMachine};
ghost use Rattle.lf_product.specs.Distance.{IsAmbiguous};
ghost use Rattle.lf_witness.specs.Heads.{IsLeastHeaded, HasNoHeaded};
ghost use Rattle.lf_witness.specs.Least.{HasLeast};

/// Each ambiguous machine has a least witness.
pub fn least_is_there()
    ensures { (m : Machine) → IsMachine m → IsAmbiguous m → HasLeast m }
{}

/// Of each byte, a least line begins with it, or no line with a whole run does.
pub fn headed_is_decided()
    ensures { (m : Machine) → IsMachine m → (first : ℕ) → ((line : List ℕ) × (run : List Move) × IsLeastHeaded m first line run) ⊎ HasNoHeaded m first }
{}
