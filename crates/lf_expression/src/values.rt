//! The value of an expression on a record.

ghost use Rattle.std.specs.Prelude.{◌≡◌, ◌-◌, ◌*ℤ◌, ◌++◌, ◌∷◌, All, IfOk, IfSome, IfNone, Some, None, slice_get};
ghost use Rattle.lf_layout.specs.Layouts.{civil_day, second_of_day};
ghost use Rattle.lf_time.specs.Instants.{utc_of};
ghost use Rattle.lf_syntax.specs.Cuts.{cuts};
ghost use Rattle.lf_expression.specs.Answers.{answer_said, letters_said, IsDated};
ghost use Rattle.lf_expression.specs.Exprs.{expr_said, operation_said};
ghost use Rattle.lf_expression.specs.Values.{nth, dated, counted, texted, moment_at, of_moment, of_number, of_text, of_value, of_day, of_texts, expr_value};

use crate::answers::{Answer, Letters, bytes_of};
use crate::civil::{CivilDay, CivilMoment, CivilSecond};
use crate::expr::{Expr, Operation};
use crate::parts::cut_before;
use lf_core::{Bytes, Moment, OutOfMemory, Value};
use lf_time::{epoch, to_utc};
use std::alloc::Global;

/// What a call makes of a moment.
fn of_moment<'a>(operation: Operation, civil: CivilMoment) -> Answer<'a>
    ensures { answer_said result ≡ of_moment (operation_said operation) civil.moment }
{
    let moment = civil.moment;
    match operation {
        Operation::Utc => in_utc(civil),
        Operation::Zoned(offset) => Answer::Moment(CivilMoment {
            moment: Moment {
                seconds: moment.seconds,
                millis: moment.millis,
                offset: offset.minutes,
            },
        }),
        Operation::WholeSecond => Answer::Moment(CivilMoment {
            moment: Moment {
                seconds: moment.seconds,
                millis: 0,
                offset: moment.offset,
            },
        }),
        Operation::Date => Answer::Day(civil_day(civil)),
        Operation::Clock => Answer::Clock(civil_second(civil)),
        Operation::Epoch => Answer::Number(epoch(moment)),
        Operation::Millis => Answer::Number(1000 * epoch(moment) + moment.millis as i64),
        _ => Answer::Undefined,
    }
}

fn in_utc<'a>(civil: CivilMoment) -> Answer<'a>
    ensures { answer_said result ≡ dated (utc_of civil.moment) }
{
    match to_utc(civil.moment) {
        None => Answer::Undefined,
        Some(moment) => Answer::Moment(CivilMoment { moment }),
    }
}

fn civil_day(civil: CivilMoment) -> CivilDay
    ensures { result.day ≡ civil_day civil.moment.seconds }
{
    let day = civil.moment.seconds.div_euclid(86400) as i32;
    CivilDay { day }
}

fn civil_second(civil: CivilMoment) -> CivilSecond
    ensures { result.second ≡ second_of_day civil.moment.seconds }
{
    let second = civil.moment.seconds.rem_euclid(86400) as u32;
    CivilSecond { second }
}

/// What a call makes of a number.
fn of_number<'a>(operation: Operation, number: i64) -> Answer<'a>
    ensures { answer_said result ≡ of_number (operation_said operation) number }
{
    match operation {
        Operation::Div(divisor) => Answer::Number(number.div_euclid(divisor.value)),
        Operation::Mul(factor) => product(number, factor),
        _ => Answer::Undefined,
    }
}

fn product<'a>(number: i64, factor: i64) -> Answer<'a>
    ensures { answer_said result ≡ counted (number *ℤ factor) }
{
    match number.checked_mul(factor) {
        None => Answer::Undefined,
        Some(product) => Answer::Number(product),
    }
}

/// The part of the number, from 1, of a text cut at each space.
fn part_of(text: &[u8], k: u8) -> Option<&[u8]>
    ensures some { IfSome result (λ part. slice_get (cuts 32 text.now) (k - 1) ≡ Some part.now) }
    ensures none { IfNone result (slice_get (cuts 32 text.now) (k - 1) ≡ None) }
{
    let (front, rest) = cut_before(b' ', text);
    if k <= 1 {
        return Some(front);
    }
    match rest.split_first() {
        None => None,
        Some((_space, more)) => part_of(more, k - 1),
    }
}

/// The part of a text that is held, where it is.
fn held_part<'a>(text: &'a [u8], k: u8) -> Answer<'a>
    ensures { answer_said result ≡ texted (slice_get (cuts 32 text.now) (k - 1)) }
{
    match part_of(text, k) {
        None => Answer::Undefined,
        Some(part) => Answer::Text(Letters::Held(part)),
    }
}

/// The part of a text that was made, as a copy.
fn made_part<'a>(alloc: Global, text: &[u8], k: u8) -> Result<Answer<'a>, OutOfMemory>
    ensures { IfOk result (λ answer. answer_said answer ≡ texted (slice_get (cuts 32 text.now) (k - 1))) }
{
    match part_of(text, k) {
        None => Ok(Answer::Undefined),
        Some(part) => {
            let copy = bytes_of(alloc, part)?;
            Ok(Answer::Text(Letters::Made(copy)))
        }
    }
}

/// What a call makes of a text.
fn of_text<'a>(
    alloc: Global,
    operation: Operation,
    letters: Letters<'a>,
) -> Result<Answer<'a>, OutOfMemory>
    ensures { IfOk result (λ answer. answer_said answer ≡ of_text (operation_said operation) (letters_said letters.entry)) }
{
    let Operation::Part(k) = operation else {
        return Ok(Answer::Undefined);
    };
    match letters {
        Letters::Held(text) => Ok(held_part(text, k)),
        Letters::Made(text) => made_part(alloc, text.as_slice(), k),
    }
}

/// What a call makes of an argument.
fn of_answer<'a>(
    alloc: Global,
    operation: Operation,
    first: Answer<'a>,
) -> Result<Answer<'a>, OutOfMemory>
    ensures { IfOk result (λ answer. answer_said answer ≡ of_value (operation_said operation) (answer_said first.entry)) }
{
    match first {
        Answer::Missing => Ok(Answer::Missing),
        Answer::Moment(civil) => Ok(of_moment(operation, civil)),
        Answer::Number(number) => Ok(of_number(operation, number)),
        Answer::Text(letters) => of_text(alloc, operation, letters),
        _ => Ok(Answer::Undefined),
    }
}

/// The civil time, at the offset 0.
fn moment_at(day: CivilDay, clock: CivilSecond) -> CivilMoment
    ensures { result.moment ≡ moment_at day.day clock.second }
{
    CivilMoment {
        moment: Moment {
            seconds: 86400 * day.day as i64 + clock.second as i64,
            millis: 0,
            offset: 0,
        },
    }
}

/// A day and a clock as a moment.
fn of_day<'a>(first: Answer<'a>, second: Answer<'a>) -> Answer<'a>
    ensures { answer_said result ≡ of_day (answer_said first.entry) (answer_said second.entry) }
{
    match first {
        Answer::Day(day) => match second {
            Answer::Clock(clock) => Answer::Moment(moment_at(day, clock)),
            Answer::Missing => Answer::Missing,
            _ => Answer::Undefined,
        },
        Answer::Missing => match second {
            Answer::Clock(_) | Answer::Missing => Answer::Missing,
            _ => Answer::Undefined,
        },
        _ => Answer::Undefined,
    }
}

/// The two texts with a space between them.
fn joined(alloc: Global, first: Letters, second: &[u8]) -> Result<Bytes, OutOfMemory>
    ensures { IfOk result (λ text. text ≡ letters_said first.entry ++ 32 ∷ second.now) }
{
    let mut text = first.into_bytes(alloc)?;
    text.push(b' ')?;
    text.extend(second)?;
    Ok(text)
}

/// Two texts with a space between them.
fn of_texts<'a>(
    alloc: Global,
    first: Answer<'a>,
    second: Answer<'a>,
) -> Result<Answer<'a>, OutOfMemory>
    ensures { IfOk result (λ answer. answer_said answer ≡ of_texts (answer_said first.entry) (answer_said second.entry)) }
{
    match first {
        Answer::Text(left) => match second {
            Answer::Text(right) => {
                let text = joined(alloc, left, right.as_slice())?;
                Ok(Answer::Text(Letters::Made(text)))
            }
            Answer::Missing => Ok(Answer::Missing),
            _ => Ok(Answer::Undefined),
        },
        Answer::Missing => match second {
            Answer::Text(_) | Answer::Missing => Ok(Answer::Missing),
            _ => Ok(Answer::Undefined),
        },
        _ => Ok(Answer::Undefined),
    }
}

/// The value of the slot of the number.
fn slot_value<'a>(rec: &'a [Value], k: u32) -> Answer<'a>
    requires { All IsDated rec.now }
    ensures { answer_said result ≡ nth k rec.now }
{
    if k == 0 {
        return Answer::Undefined;
    }
    match rec.get((k - 1) as usize) {
        None => Answer::Undefined,
        Some(value) => Answer::of(value),
    }
}

/// The value of the expression on the record, with its texts where they are.
pub(crate) fn answer_of<'a>(
    alloc: Global,
    expr: &'a Expr,
    rec: &'a [Value],
) -> Result<Answer<'a>, OutOfMemory>
    requires { All IsDated rec.now }
    ensures { IfOk result (λ answer. answer_said answer ≡ expr_value (expr_said expr.now) rec.now) }
{
    match expr {
        Expr::Missing => Ok(Answer::Missing),
        Expr::Number(number) => Ok(Answer::Number(*number)),
        Expr::Text(text) => Ok(Answer::Text(Letters::Held(text.as_slice()))),
        Expr::Slot(k) => Ok(slot_value(rec, *k)),
        Expr::OrElse(first, second) => match answer_of(alloc, first, rec)? {
            Answer::Missing => answer_of(alloc, second, rec),
            present => Ok(present),
        },
        Expr::AtTime(first, second) => {
            let first = answer_of(alloc, first, rec)?;
            let second = answer_of(alloc, second, rec)?;
            Ok(of_day(first, second))
        }
        Expr::Spaced(first, second) => {
            let first = answer_of(alloc, first, rec)?;
            let second = answer_of(alloc, second, rec)?;
            of_texts(alloc, first, second)
        }
        Expr::Applied(operation, first) => {
            let first = answer_of(alloc, first, rec)?;
            of_answer(alloc, *operation, first)
        }
    }
}
