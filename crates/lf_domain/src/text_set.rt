//! The domain of the texts of a class whose lengths are in a range.

ghost use Rattle.std.specs.Prelude.{◌≡◌, ℕ, ◌+◌, ◌≤◌, IsTrue, ◌↔◌, length};
ghost use Rattle.lf_limits.specs.Limits.{most_length};
ghost use Rattle.std.specs.Option.{ForSome};
ghost use Rattle.lf_domain.specs.Texts.{HoldsText, IsSized, text_of, text_machine, top_point};

use crate::plain_text::{new_text, write_text};
use lf_core::{Bytes, Class, Domain, OutOfMemory, Value};
use std::alloc::Global;

/// The texts of `min` to `max` letters of a class, without an upper bound where `max` is none.
#[derive(Clone, Copy, Debug, PartialEq, Eq)]
pub struct TextSet {
    pub class: Class,
    pub min: u32,
    pub max: Option<u32>,
    ghost min_bounded: { min ≤ most_length },
    ghost max_bounded: { ForSome max (λ most. most ≤ most_length) },
}

impl Domain for TextSet {
    ghost use Rattle.lf_domain.specs.TextLaws.{text_laws};

    ghost holds = { λ d. HoldsText d.class d.min d.max };

    ghost plain = { λ _. text_of };

    ghost machine = { λ d. text_machine d.class d.min d.max };

    ghost size = { λ d. top_point d.min d.max + 1 };

    ghost laws = { λ d. text_laws d.class d.min d.max };

    fn check(&self, value: &Value) -> bool {
        match value {
            Value::Text(text) => is_sized(self.class, self.min, self.max, text.as_slice()),
            _ => false,
        }
    }

    fn write_plain(&self, value: &Value, into: &mut Bytes) -> Result<(), OutOfMemory> {
        write_text(value, into)
    }

    fn read_plain(&self, alloc: Global, text: &[u8]) -> Result<Option<Value>, OutOfMemory> {
        if is_sized(self.class, self.min, self.max, text) {
            Ok(Some(new_text(alloc, text)?))
        } else {
            Ok(None)
        }
    }

    fn points(&self) -> u32 {
        match self.max {
            Some(most) => most + 1,
            None => self.min + 1,
        }
    }

    fn start(&self) -> u32 {
        0
    }

    fn step(&self, point: u32, letter: u8) -> Option<u32> {
        if !self.class.has(letter) {
            return None;
        }
        match self.max {
            Some(most) => { if point < most { Some(point + 1) } else { None } }
            None => {
                if point < self.min {
                    Some(point + 1)
                } else {
                    Some(self.min)
                }
            }
        }
    }

    fn ends(&self, point: u32) -> bool {
        self.min <= point
    }
}

/// Whether the text has so many letters, all of the class.
fn is_sized(class: Class, min: u32, max: Option<u32>, text: &[u8]) -> bool
    ensures { IsTrue result ↔ IsSized class min max text.now }
{
    let in_bounds = match max {
        Some(most) => text.len() <= most as usize,
        None => true,
    };
    (min as usize) <= text.len() && in_bounds && text.iter().all(|&b| class.has(b))
}
