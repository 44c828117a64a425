//! The traits of codes: a word for each letter, and words that tell their letters.

ghost use Rattle.std.specs.Prelude.{◌≡◌, ℕ, List, Bool, true};
ghost use Rattle.lf_escape.specs.Codes.{IsCode, AreWordsApart, is_bare};

use crate::word::Word;

/// A word of bytes for each letter that the code takes. Each call takes constant time and no memory.
pub trait Code {
    /// The code takes the letter.
    ghost can_take: { Self → ℕ → Bool };

    /// The word of a letter that is taken.
    ghost word: { Self → ℕ → List ℕ };

    /// Whether the code takes the letter.
    fn takes(&self, letter: u8) -> bool
        ensures { result ≡ can_take self.now letter };

    /// The word of a letter that is taken.
    fn word_of(&self, letter: u8) -> Word
        requires { can_take self.now letter ≡ true }
        ensures { result ≡ word self.now letter };

    /// Whether the letter is its own word.
    fn is_bare(&self, letter: u8) -> bool
        ensures { result ≡ is_bare (word self.now) letter };

    /// What each code keeps.
    ghost laws: { (c : Self) → IsCode (can_take c) (word c) };
}

/// A code whose words tell their letters.
pub trait Apart: Code {
    /// Two letters with one word are one letter.
    ghost apart: { (c : Self) → AreWordsApart (Self.can_take c) (Self.word c) };
}
