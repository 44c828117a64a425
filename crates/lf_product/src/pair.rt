//! Pairs of points.
ghost use Rattle.std.specs.Prelude.{◌≡◌, ◌↔◌, IsTrue};
ghost use Rattle.lf_product.specs.Distance.{differed_by};

use lf_core::Move;

/// Two points, and whether the runs that led there differ.
#[derive(Clone, Copy, Debug)]
pub struct Pair {
    pub left: u32,
    pub right: u32,
    pub differed: bool,
}

/// A flagged pair of a machine of few points, in six bytes.
#[derive(Clone, Copy, Debug)]
pub(crate) struct SmallPair {
    pub(crate) left: u16,
    pub(crate) right: u16,
    pub(crate) differed: bool,
}

impl Pair {
    /// Whether the pairs are the same.
    pub(crate) fn is(self, other: Pair) -> bool
        ensures { IsTrue result ↔ (self ≡ other) }
    {
        (self.left == other.left) & (self.right == other.right) & (self.differed == other.differed)
    }

    /// Where a move of each run leads.
    pub(crate) fn after(x: Move, y: Move, differed: bool) -> Pair
        ensures left { result.left ≡ x.to }
        ensures right { result.right ≡ y.to }
        ensures differed { result.differed ≡ differed_by differed x y }
    {
        let same = x.mark == y.mark && x.to == y.to;
        Pair {
            left: x.to,
            right: y.to,
            differed: differed | !same,
        }
    }
}
