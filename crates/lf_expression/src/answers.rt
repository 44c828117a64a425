//! The values of expressions, which borrow the texts of records and maps.

ghost use Rattle.std.specs.Prelude.{◌≡◌, IfOk, Some};
ghost use Rattle.lf_expression.specs.Answers.{answer_said, letters_said, IsDated};

use crate::civil::{CivilDay, CivilMoment, CivilSecond};
use lf_core::{Bytes, OutOfMemory, Value};
use std::alloc::Global;

/// A text: one that is held elsewhere, or one that was made.
#[derive(Drop)]
pub(crate) enum Letters<'a> {
    Held(&'a [u8]),
    Made(Bytes),
}

/// The value of an expression.
#[derive(Drop)]
pub(crate) enum Answer<'a> {
    Undefined,
    Missing,
    Number(i64),
    Text(Letters<'a>),
    Moment(CivilMoment),
    Day(CivilDay),
    Clock(CivilSecond),
}

impl<'a> Letters<'a> {
    pub(crate) fn as_slice(&self) -> &[u8]
        ensures { result.now ≡ letters_said self.now }
    {
        match self {
            Letters::Held(text) => text,
            Letters::Made(text) => text.as_slice(),
        }
    }

    /// The text as a list of its own.
    pub(crate) fn into_bytes(self, alloc: Global) -> Result<Bytes, OutOfMemory>
        ensures { IfOk result (λ text. text ≡ letters_said self.entry) }
    {
        match self {
            Letters::Held(text) => bytes_of(alloc, text),
            Letters::Made(text) => Ok(text),
        }
    }
}

/// A copy of the text.
pub(crate) fn bytes_of(alloc: Global, text: &[u8]) -> Result<Bytes, OutOfMemory>
    ensures { IfOk result (λ copy. copy ≡ text.now) }
{
    let mut copy = Bytes::new(alloc);
    copy.extend(text)?;
    Ok(copy)
}

impl<'a> Answer<'a> {
    /// The value of a record, with its text where it is.
    pub(crate) fn of(value: &'a Value) -> Answer<'a>
        requires { IsDated value.now }
        ensures { answer_said result ≡ Some value.now }
    {
        match value {
            Value::Missing => Answer::Missing,
            Value::Num(number) => Answer::Number(*number),
            Value::Text(text) => Answer::Text(Letters::Held(text.as_slice())),
            Value::Moment(moment) => Answer::Moment(CivilMoment { moment: *moment }),
            Value::Day(day) => Answer::Day(CivilDay { day: *day }),
            Value::Clock(second) => Answer::Clock(CivilSecond { second: *second }),
        }
    }

    /// The value, unless it is undefined.
    pub(crate) fn into_value(self, alloc: Global) -> Result<Option<Value>, OutOfMemory>
        ensures { IfOk result (λ value. value ≡ answer_said self.entry) }
    {
        match self {
            Answer::Undefined => Ok(None),
            Answer::Missing => Ok(Some(Value::Missing)),
            Answer::Number(number) => Ok(Some(Value::Num(number))),
            Answer::Text(letters) => Ok(Some(Value::Text(letters.into_bytes(alloc)?))),
            Answer::Moment(civil) => Ok(Some(Value::Moment(civil.moment))),
            Answer::Day(civil) => Ok(Some(Value::Day(civil.day))),
            Answer::Clock(civil) => Ok(Some(Value::Clock(civil.second))),
        }
    }
}
