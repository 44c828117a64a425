//! The domain of queries: nothing, or a question mark and letters of a class.

ghost use Rattle.std.specs.Prelude.{IsTrue, ◌↔◌};
ghost use Rattle.lf_domain.specs.Texts.{HoldsQuery, IsQuery, text_of, query_machine};

use crate::plain_text::{new_text, write_text};
use lf_core::{Bytes, Class, Domain, OutOfMemory, Value};
use std::alloc::Global;

/// The empty text, and the texts of a question mark and then letters of a class.
#[derive(Clone, Copy, Debug, PartialEq, Eq)]
pub struct QueryText {
    /// The letters after the question mark.
    pub class: Class,
}

impl Domain for QueryText {
    ghost use Rattle.lf_domain.specs.TextLaws.{query_laws};

    ghost holds = { λ d. HoldsQuery d.class };

    ghost plain = { λ _. text_of };

    ghost machine = { λ d. query_machine d.class };

    ghost size = { λ _. 2 };

    ghost laws = { λ d. query_laws d.class };

    fn check(&self, value: &Value) -> bool {
        match value {
            Value::Text(text) => is_query(self.class, text.as_slice()),
            _ => false,
        }
    }

    fn write_plain(&self, value: &Value, into: &mut Bytes) -> Result<(), OutOfMemory> {
        write_text(value, into)
    }

    fn read_plain(&self, alloc: Global, text: &[u8]) -> Result<Option<Value>, OutOfMemory> {
        if is_query(self.class, text) {
            Ok(Some(new_text(alloc, text)?))
        } else {
            Ok(None)
        }
    }

    fn points(&self) -> u32 {
        2
    }

    fn start(&self) -> u32 {
        0
    }

    fn step(&self, point: u32, letter: u8) -> Option<u32> {
        let goes_on = if point == 0 {
            letter == b'?'
        } else {
            self.class.has(letter)
        };
        if goes_on { Some(1) } else { None }
    }

    fn ends(&self, _point: u32) -> bool {
        true
    }
}

/// Whether the text is empty, or a question mark and then letters of the class.
fn is_query(class: Class, text: &[u8]) -> bool
    ensures { IsTrue result ↔ IsQuery class text.now }
{
    match text.split_first() {
        None => true,
        Some((mark, letters)) => *mark == b'?' && letters.iter().all(|&b| class.has(b)),
    }
}
