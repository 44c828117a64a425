//! Literals.
ghost use Rattle.std.specs.Prelude.{◌≡◌, ◌++◌, IfSome};

/// What follows the literal.
pub fn after_literal<'a>(literal: &[u8], text: &'a [u8]) -> Option<&'a [u8]>
    ensures { IfSome result (λ left. text.now ≡ literal.now ++ left.now) }
{
    let mut left = text;
    for wanted in literal {
        let (byte, rest) = left.split_first()?;
        if byte != wanted {
            return None;
        }
        left = rest;
    }
    Some(left)
}
