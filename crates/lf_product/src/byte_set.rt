//! Sets of bytes.
ghost use Rattle.std.specs.Prelude.{◌≡◌, ℕ, ◌<◌, ◌⊎◌, IsTrue};
ghost use Rattle.std.specs.Int.{bit_at};
ghost use Rattle.lf_product.specs.ByteSet.{HasByte};

/// A set of bytes.
#[derive(Clone, Copy, Debug)]
pub(crate) struct ByteSet {
    words: [u64; 4],
}

impl ByteSet {
    pub(crate) fn new() -> ByteSet
        ensures { (b : ℕ) → HasByte result b → ⊥ }
    {
        ByteSet { words: [0; 4] }
    }

    pub(crate) fn with(self, byte: u8) -> ByteSet
        ensures kept { (b : ℕ) → HasByte self b → HasByte result b }
        ensures added { HasByte result byte }
        ensures only { (b : ℕ) → b < 256 → HasByte result b → HasByte self b ⊎ (b ≡ byte) }
    {
        let mut words = self.words;
        let at = usize::from(byte / 64);
        words[at] |= 1 << (byte % 64);
        ByteSet { words }
    }

    /// Whether some byte is in both.
    pub(crate) fn meets(&self, other: &ByteSet) -> bool
        ensures yes { IsTrue result → (b : ℕ) × (b < 256) × HasByte self.now b × HasByte other.now b }
        ensures no { (b : ℕ) → b < 256 → HasByte self.now b → HasByte other.now b → IsTrue result }
    {
        let a = &self.words;
        let b = &other.words;
        let first = share(a[0], b[0]);
        let second = share(a[1], b[1]);
        let third = share(a[2], b[2]);
        let fourth = share(a[3], b[3]);
        first | second | third | fourth
    }
}

fn share(a: u64, b: u64) -> bool
    ensures yes { IsTrue result → (i : ℕ) × (i < 64) × (bit_at a i ≡ 1) × (bit_at b i ≡ 1) }
    ensures no { (i : ℕ) → bit_at a i ≡ 1 → bit_at b i ≡ 1 → IsTrue result }
{
    a & b != 0
}
