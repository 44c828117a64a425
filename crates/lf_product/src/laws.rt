//! A law over the definitions alone, the contract of a function that does nothing.

ghost use Rattle.std.specs.Prelude.{◌⊎◌};
ghost use Rattle.lf_core.specs.Marked.{Machine, IsMachine};
ghost use Rattle.lf_product.specs.Distance.{IsAmbiguous};

/// A machine is ambiguous or isn't, however many points it has.
pub fn ambiguity_is_decided()
    ensures { (m : Machine) → IsMachine m → IsAmbiguous m ⊎ (IsAmbiguous m → ⊥) }
{}
