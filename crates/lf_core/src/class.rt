//! Classes: sets of bytes.

ghost use Rattle.std.specs.Prelude.{◌≡◌, ℕ, ◌<◌, ◌↔◌, ◌==◌, ◌&&◌, ◌||◌, [], IsTrue, not, leb, cond, length, slice_index};
ghost use Rattle.lf_core.specs.Class.{is_member, members, members_below};
ghost use Rattle.std.specs.Int.{bit_at};

/// A set of bytes.
#[derive(Clone, Copy, Debug, PartialEq, Eq)]
pub struct Class {
    low: u128,
    high: u128,
}

impl Class {
    /// Every byte.
    pub const ANY: Class = Class {
        low: 0xffff_ffff_ffff_ffff_ffff_ffff_ffff_ffff,
        high: 0xffff_ffff_ffff_ffff_ffff_ffff_ffff_ffff,
    };

    /// The bytes of a header: a tab, 0x20 to 0x7E and 0x80 to 0xFF.
    pub const HEADER: Class = Class {
        low: 0x7fff_ffff_ffff_ffff_ffff_ffff_0000_0200,
        high: 0xffff_ffff_ffff_ffff_ffff_ffff_ffff_ffff,
    };

    /// The visible bytes of ASCII, 0x21 to 0x7E.
    pub const VISIBLE: Class = Class {
        low: 0x7fff_ffff_ffff_ffff_ffff_fffe_0000_0000,
        high: 0,
    };

    /// 0x21 to 0x7E and 0x80 to 0xFF.
    pub const WORD: Class = Class {
        low: 0x7fff_ffff_ffff_ffff_ffff_fffe_0000_0000,
        high: 0xffff_ffff_ffff_ffff_ffff_ffff_ffff_ffff,
    };

    /// 0x20 to 0x7E and 0x80 to 0xFF.
    pub const SPACED: Class = Class {
        low: 0x7fff_ffff_ffff_ffff_ffff_ffff_0000_0000,
        high: 0xffff_ffff_ffff_ffff_ffff_ffff_ffff_ffff,
    };

    /// Every byte but the space.
    pub const NO_SPACE: Class = Class {
        low: 0xffff_ffff_ffff_ffff_ffff_fffe_ffff_ffff,
        high: 0xffff_ffff_ffff_ffff_ffff_ffff_ffff_ffff,
    };

    /// 0x21 to 0x7E without `+`, and 0x80 to 0xFF.
    pub const IIS_WORD: Class = Class {
        low: 0x7fff_ffff_ffff_ffff_ffff_f7fe_0000_0000,
        high: 0xffff_ffff_ffff_ffff_ffff_ffff_ffff_ffff,
    };

    /// ASCII letters and digits, `-`, `_`, `.`, `:`, `~`, `<` and `>`.
    pub const PROXY: Class = Class {
        low: 0x47ff_fffe_87ff_fffe_57ff_6000_0000_0000,
        high: 0,
    };

    /// Digits and `+`.
    pub const COUNTS: Class = Class {
        low: 0x0000_0000_0000_0000_03ff_0800_0000_0000,
        high: 0,
    };

    /// Digits and `.`.
    pub const DECIMAL: Class = Class {
        low: 0x0000_0000_0000_0000_03ff_4000_0000_0000,
        high: 0,
    };

    /// The bytes from the first to the last, and none where the first is above the last.
    pub fn of(first: u8, last: u8) -> Class
        ensures { (b : ℕ) → b < 256 → is_member result b ≡ (leb first b && leb b last) }
    {
        let mut all = Class { low: 0, high: 0 };
        for b in 0..=255u8 {
            let inside = (first <= b) & (b <= last);
            all = all.put(b, inside);
        }
        all
    }

    /// Whether the byte is in the set.
    pub fn has(&self, b: u8) -> bool
        ensures { result ≡ is_member self.now b }
    {
        if b < 128 {
            (self.low >> b) & 1 == 1
        } else {
            (self.high >> (b - 128)) & 1 == 1
        }
    }

    /// The set with the byte in it.
    pub fn with(self, b: u8) -> Class
        ensures { (x : ℕ) → x < 256 → is_member result x ≡ (is_member self x || x == b) }
    {
        self.put(b, true)
    }

    /// The set without the byte.
    pub fn without(self, b: u8) -> Class
        ensures { (x : ℕ) → x < 256 → is_member result x ≡ (is_member self x && not (x == b)) }
    {
        self.put(b, false)
    }

    /// The bytes that are in both sets.
    pub fn both(self, other: Class) -> Class
        ensures { (x : ℕ) → x < 256 → is_member result x ≡ (is_member self x && is_member other x) }
    {
        Class {
            low: self.low & other.low,
            high: self.high & other.high,
        }
    }

    /// Whether no byte is in the set.
    pub fn is_empty(&self) -> bool
        ensures { IsTrue result ↔ (members self.now ≡ []) }
    {
        self.count() == 0
    }

    /// How many bytes the set has.
    pub fn count(&self) -> u32
        ensures { result ≡ length (members self.now) }
    {
        let mut count = 0;
        for b in 0..256u16 {
            if self.has(b as u8) {
                count += 1;
            }
        }
        count
    }

    /// The member with `n` lesser ones.
    pub fn nth(&self, n: u32) -> u8
        requires { n < length (members self.now) }
        ensures { result ≡ slice_index (members self.now) n }
    {
        let mut lesser = 0;
        for b in 0..256u16 {
            if self.has(b as u8) {
                if lesser == n {
                    return b as u8;
                }
                lesser += 1;
            }
        }
        0
    }

    /// The set with the byte in it or not, as told.
    fn put(self, b: u8, inside: bool) -> Class
        ensures { (x : ℕ) → x < 256 → is_member result x ≡ cond (x == b) inside (is_member self x) }
    {
        if b < 128 {
            Class {
                low: put_bit(self.low, b, inside),
                high: self.high,
            }
        } else {
            Class {
                low: self.low,
                high: put_bit(self.high, b - 128, inside),
            }
        }
    }
}

/// The number with its bit `at` set or not, as told.
fn put_bit(bits: u128, at: u8, inside: bool) -> u128
    requires { at < 128 }
    ensures { (i : ℕ) → i < 128 → (bit_at result i == 1) ≡ cond (i == at) inside (bit_at bits i == 1) }
{
    if inside {
        bits | (1 << at)
    } else {
        bits & !(1 << at)
    }
}
