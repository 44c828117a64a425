//! Which bytes the classes have.

ghost use Rattle.std.specs.Prelude.{◌≡◌, ℕ, ◌<◌, true};
ghost use Rattle.lf_core.specs.Class.{is_member};
ghost use Rattle.lf_core.specs.Classes.{is_visible, is_word, is_spaced, is_header, is_no_space, is_iis_word, is_proxy, is_counts, is_decimal};

use crate::class::Class;

/// The bytes of each class, as its name says.
pub fn classes()
    ensures any { (b : ℕ) → b < 256 → is_member Class.ANY b ≡ true }
    ensures header { (b : ℕ) → b < 256 → is_member Class.HEADER b ≡ is_header b }
    ensures visible { (b : ℕ) → b < 256 → is_member Class.VISIBLE b ≡ is_visible b }
    ensures word { (b : ℕ) → b < 256 → is_member Class.WORD b ≡ is_word b }
    ensures spaced { (b : ℕ) → b < 256 → is_member Class.SPACED b ≡ is_spaced b }
    ensures no_space { (b : ℕ) → b < 256 → is_member Class.NO_SPACE b ≡ is_no_space b }
    ensures iis_word { (b : ℕ) → b < 256 → is_member Class.IIS_WORD b ≡ is_iis_word b }
    ensures proxy { (b : ℕ) → b < 256 → is_member Class.PROXY b ≡ is_proxy b }
    ensures counts { (b : ℕ) → b < 256 → is_member Class.COUNTS b ≡ is_counts b }
    ensures decimal { (b : ℕ) → b < 256 → is_member Class.DECIMAL b ≡ is_decimal b }
{}
