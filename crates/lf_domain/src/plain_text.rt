//! Texts as values: their letters are their plain text.

ghost use Rattle.std.specs.Prelude.{◌≡◌, ◌++◌, IfOk, OnOk, OnErr};
ghost use Rattle.lf_domain.specs.Texts.{text_of};

use lf_core::{Bytes, OutOfMemory, Value};
use std::alloc::Global;

/// Appends the letters of a text, and of another value nothing.
pub fn write_text(value: &Value, into: &mut Bytes) -> Result<(), OutOfMemory>
    ensures ok { OnOk result (into.new ≡ into.old ++ text_of value.now) }
    ensures err { OnErr result (into.new ≡ into.old) }
{
    match value {
        Value::Text(text) => into.extend(text.as_slice()),
        _ => Ok(()),
    }
}

/// The letters as a text.
pub fn new_text(alloc: Global, letters: &[u8]) -> Result<Value, OutOfMemory>
    ensures { IfOk result (λ value. value ≡ Value.Text letters.now) }
{
    let mut text = Bytes::new(alloc);
    text.extend(letters)?;
    Ok(Value::Text(text))
}
