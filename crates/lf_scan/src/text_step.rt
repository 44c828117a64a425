//! The steps of texts and of queries.
ghost use Rattle.std.specs.Prelude.{◌≤◌};
ghost use Rattle.std.specs.Option.{ForSome};
ghost use Rattle.lf_limits.specs.Limits.{most_length};

use lf_letters::Letters;

/// Texts of so many letters.
#[derive(Debug, Drop)]
pub struct TextStep {
    pub letters: Letters,
    pub min: u32,
    pub max: Option<u32>,
    ghost min_bounded: { min ≤ most_length },
    ghost max_bounded: { ForSome max (λ most. most ≤ most_length) },
}

/// Queries.
#[derive(Debug, Drop)]
pub struct QueryStep {
    pub letters: Letters,
}
