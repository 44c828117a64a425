//! Records: the values of a line's slots.

ghost use Rattle.std.specs.Prelude.{◌≡◌, ◌<◌, [], ◌∷◌, ◌++◌, length, slice_index_or, IfOk, OnOk, OnErr};

use crate::memory::OutOfMemory;
use crate::values::Value;
use std::alloc::Global;
use std::marker::Model;

/// The values of a line's slots, in order.
#[derive(Debug, Drop)]
pub struct Record {
    values: Vec<Value>,
}

impl Model for Record {
    ghost use Rattle.std.specs.Prelude.{List};
    ghost use Rattle.lf_core.specs.declared.values.Value.{Value as OneValue};

    ghost Value = { List OneValue };

    ghost view = { λ r. r.values.items };
}

impl Record {
    /// A record of no value, which takes memory with its first one.
    pub fn new(alloc: Global) -> Record
        ensures { result ≡ [] }
    {
        Record {
            values: Vec::new(alloc),
        }
    }

    /// After want of memory the record is as it was, and the value is dropped.
    pub fn push(&mut self, value: Value) -> Result<(), OutOfMemory>
        ensures ok { OnOk result (self.new ≡ self.old ++ value ∷ []) }
        ensures err { OnErr result (self.new ≡ self.old) }
    {
        self.values.push(value)?;
        Ok(())
    }

    /// How many values the record has.
    pub fn len(&self) -> usize
        ensures { result ≡ length self.now }
    {
        self.values.len()
    }

    /// The value at the place, counted from 0.
    pub fn get(&self, at: usize) -> &Value
        requires { at < length self.now }
        ensures { result.now ≡ slice_index_or self.now at result.now }
    {
        &self.values[at]
    }

    /// The values, in order.
    pub fn as_slice(&self) -> &[Value]
        ensures { result.now ≡ self.now }
    {
        self.values.as_slice()
    }

    /// Empties the record and keeps its memory.
    pub fn clear(&mut self)
        ensures { self.new ≡ [] }
    {
        self.values.clear();
    }

    /// An equal record, on the same allocator.
    pub fn copy(&self) -> Result<Record, OutOfMemory>
        ensures { IfOk result (λ copy. copy ≡ self.now) }
    {
        let mut copy = Record::new(*self.values.allocator());
        for value in &self.values {
            copy.push(value.copy()?)?;
        }
        Ok(copy)
    }
}
