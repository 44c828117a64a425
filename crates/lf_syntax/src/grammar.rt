//! Grammars as data.
ghost use Rattle.std.specs.Prelude.{◌≡◌, IfOk};
ghost use Rattle.lf_syntax.specs.Grammar.{leaf, sequence, choice, star, word, again, ends};
ghost use Rattle.lf_syntax.specs.Shape.{grammar};

use crate::leaf::Leaf;
use std::alloc::{AllocError, Global};

/// A grammar.
#[derive(Drop)]
pub enum Grammar {
    /// One leaf.
    Leaf(Leaf),
    /// The first, and then the second.
    Sequence(Box<Grammar>, Box<Grammar>),
    /// Either of the two.
    Choice(Box<Grammar>, Box<Grammar>),
    /// Any number of these, one after another.
    Star(Box<Grammar>),
    /// The rule of the language once more.
    Again,
}

impl Grammar {
    /// One leaf.
    pub fn leaf(piece: Leaf) -> Grammar
        ensures { grammar result ≡ leaf piece }
    {
        Grammar::Leaf(piece)
    }

    /// The first, and then the second.
    pub fn sequence(alloc: Global, first: Grammar, second: Grammar) -> Result<Grammar, AllocError>
        ensures { IfOk result (λ made. grammar made ≡ sequence (grammar first) (grammar second)) }
    {
        let first = Box::new(alloc, first)?;
        let second = Box::new(alloc, second)?;
        Ok(Grammar::Sequence(first, second))
    }

    /// Either of the two.
    pub fn choice(alloc: Global, first: Grammar, second: Grammar) -> Result<Grammar, AllocError>
        ensures { IfOk result (λ made. grammar made ≡ choice (grammar first) (grammar second)) }
    {
        let first = Box::new(alloc, first)?;
        let second = Box::new(alloc, second)?;
        Ok(Grammar::Choice(first, second))
    }

    /// Any number of these, one after another.
    pub fn star(alloc: Global, inner: Grammar) -> Result<Grammar, AllocError>
        ensures { IfOk result (λ made. grammar made ≡ star (grammar inner)) }
    {
        let inner = Box::new(alloc, inner)?;
        Ok(Grammar::Star(inner))
    }

    /// The rule of the language once more. In a sound grammar it stands only as the second of a choice.
    pub fn again() -> Grammar
        ensures { grammar result ≡ again }
    {
        Grammar::Again
    }

    /// These bytes, one after another.
    pub fn word(alloc: Global, text: &[u8]) -> Result<Grammar, AllocError>
        ensures { IfOk result (λ made. grammar made ≡ word text.now) }
    {
        match text.split_first() {
            None => Ok(Grammar::leaf(Leaf::End)),
            Some((byte, rest)) => {
                let rest = Grammar::word(alloc, rest)?;
                Grammar::sequence(alloc, Grammar::leaf(Leaf::Within(*byte, *byte)), rest)
            }
        }
    }

    /// Does it spell the empty text?
    pub(crate) fn may_end(&self) -> bool
        ensures { result ≡ ends (grammar self.now) }
    {
        match self {
            Grammar::Leaf(leaf) => leaf.ends(),
            Grammar::Sequence(first, second) => {
                if first.may_end() {
                    return second.may_end();
                }
                false
            }
            Grammar::Choice(first, second) => {
                if first.may_end() {
                    return true;
                }
                second.may_end()
            }
            Grammar::Star(_) => true,
            Grammar::Again => false,
        }
    }
}
