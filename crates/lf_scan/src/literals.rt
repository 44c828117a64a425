//! Single bytes.
ghost use Rattle.std.specs.Prelude.{◌≡◌, ◌∷◌, IfSome};

/// What follows the byte.
pub(crate) fn after_byte(byte: u8, text: &[u8]) -> Option<&[u8]>
    ensures { IfSome result (λ left. text.now ≡ byte ∷ left.now) }
{
    let (first, left) = text.split_first()?;
    if *first == byte { Some(left) } else { None }
}
