//! The words of codes.

ghost use Rattle.std.specs.Prelude.{◌≡◌, ℕ, ◌≤◌, List, [], ◌∷◌, length, take};

use std::marker::Model;

/// One to six bytes.
#[derive(Drop)]
pub struct Word {
    bytes: [u8; 6],
    len: usize,
}

impl Model for Word {
    ghost Value = { List ℕ };

    ghost view = { λ w. take w.len w.bytes };

    ghost invariant = { λ w. (1 ≤ w.len) × (w.len ≤ 6) };
}

impl Word {
    /// The bytes, in order.
    pub fn as_slice(&self) -> &[u8]
        ensures bytes { result.now ≡ self.now }
        ensures size { (1 ≤ length result.now) × (length result.now ≤ 6) }
    {
        &self.bytes[..self.len]
    }

    pub(crate) fn of_one(a: u8) -> Word
        ensures { result ≡ a ∷ [] }
    {
        Word {
            bytes: [a, 0, 0, 0, 0, 0],
            len: 1,
        }
    }

    pub(crate) fn of_two(a: u8, b: u8) -> Word
        ensures { result ≡ a ∷ b ∷ [] }
    {
        Word {
            bytes: [a, b, 0, 0, 0, 0],
            len: 2,
        }
    }

    pub(crate) fn of_three(a: u8, b: u8, c: u8) -> Word
        ensures { result ≡ a ∷ b ∷ c ∷ [] }
    {
        Word {
            bytes: [a, b, c, 0, 0, 0],
            len: 3,
        }
    }

    pub(crate) fn of_four(a: u8, b: u8, c: u8, d: u8) -> Word
        ensures { result ≡ a ∷ b ∷ c ∷ d ∷ [] }
    {
        Word {
            bytes: [a, b, c, d, 0, 0],
            len: 4,
        }
    }

    pub(crate) fn of_six(bytes: [u8; 6]) -> Word
        ensures { result ≡ bytes }
    {
        Word { bytes, len: 6 }
    }
}
