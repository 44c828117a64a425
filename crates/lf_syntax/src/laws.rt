//! The laws of places, for every grammar.
ghost use Rattle.std.specs.Prelude.{◌≡◌, ◌⊎◌, ℕ, ◌+◌, List, ◌∷◌, ◌++◌, length, true};
ghost use Rattle.lf_syntax.specs.Places.{FaultPlace};
ghost use Rattle.lf_syntax.specs.Cuts.{avoids, cuts, ended, front_of, from_first, further_cuts, separated};
ghost use Rattle.lf_syntax.specs.Grammar.{Grammar, NestedSentence, Each, is_rule, is_sound};

/// A text has at most one place of a fault.
pub fn one_place()
    ensures { (rule g : Grammar) (depth : ℕ) (text : List ℕ) (p q : ℕ) → FaultPlace (NestedSentence rule depth g) text p → FaultPlace (NestedSentence rule depth g) text q → p ≡ q }
{}

/// A text is a sentence or has a place (and not both, since a place says that it is none).
pub fn one_of_two()
    ensures { (rule g : Grammar) (depth : ℕ) (text : List ℕ) → is_rule rule ≡ true → is_sound g ≡ true → NestedSentence rule depth g text ⊎ ((p : ℕ) × FaultPlace (NestedSentence rule depth g) text p) }
{}

/// Where the parts have no such byte, a text is parts joined by it exactly where each of its pieces is a part.
pub fn cut_at_separators()
    ensures cut { (rule part : Grammar) (depth byte : ℕ) (text : List ℕ) → avoids byte rule ≡ true → avoids byte part ≡ true → NestedSentence rule depth (separated byte part) text → Each (NestedSentence rule depth part) (cuts byte text) }
    ensures rejoined { (rule part : Grammar) (depth byte : ℕ) (text : List ℕ) → Each (NestedSentence rule depth part) (cuts byte text) → NestedSentence rule depth (separated byte part) text }
{}

/// Where the parts have no such byte, and those before are parts, the fault of a piece is that of the whole text.
pub fn first_fault_decides()
    ensures pieces { (byte : ℕ) (text : List ℕ) → cuts byte text ≡ front_of byte text ∷ further_cuts byte (from_first byte text) }
    ensures place { (rule part : Grammar) (depth byte place : ℕ) (done : List (List ℕ)) (rest : List ℕ) → avoids byte rule ≡ true → avoids byte part ≡ true
        → Each (NestedSentence rule depth part) done → FaultPlace (NestedSentence rule depth part) (front_of byte rest) place
        → FaultPlace (NestedSentence rule depth (separated byte part)) (ended byte done ++ rest) (length (ended byte done) + place) }
{}
