//! Whether a call is listed to fail.

ghost use Rattle.std.specs.Prelude.{◌↔◌, IsTrue, Contains};

/// Whether the number of a call is listed.
pub(crate) fn is_listed(numbers: &[u32], call: u64) -> bool
    ensures { IsTrue result ↔ Contains numbers.now call }
{
    numbers.iter().any(|number| u64::from(*number) == call)
}
