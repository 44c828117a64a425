//! Values of slots, and moments among them.

ghost use Rattle.std.specs.Prelude.{◌≡◌, IfOk};

use crate::bytes::Bytes;
use crate::memory::OutOfMemory;

/// A civil date and time with its offset. `seconds` counts the date and time as written from
/// 1970-01-01T00:00:00 of the same clock, and `offset` is in minutes east, so that the instant is
/// `seconds - 60 * offset`.
#[derive(Clone, Copy, Debug, PartialEq, Eq)]
pub struct Moment {
    pub seconds: i64,
    /// Thousandths of a second, on top of `seconds`.
    pub millis: u16,
    pub offset: i16,
}

/// What one slot of a line says. `Day` counts days from 1970-01-01, and `Clock` seconds from midnight.
#[derive(Debug, Drop)]
pub enum Value {
    /// There is no value.
    Missing,
    Num(i64),
    /// A text of any bytes, which need not be UTF-8.
    Text(Bytes),
    Moment(Moment),
    Day(i32),
    Clock(u32),
}

impl Value {
    /// An equal value; a text on the same allocator.
    pub fn copy(&self) -> Result<Value, OutOfMemory>
        ensures { IfOk result (λ copy. copy ≡ self.now) }
    {
        match self {
            Value::Missing => Ok(Value::Missing),
            Value::Num(number) => Ok(Value::Num(*number)),
            Value::Text(text) => {
                let text = text.copy()?;
                Ok(Value::Text(text))
            }
            Value::Moment(moment) => Ok(Value::Moment(*moment)),
            Value::Day(day) => Ok(Value::Day(*day)),
            Value::Clock(second) => Ok(Value::Clock(*second)),
        }
    }
}
