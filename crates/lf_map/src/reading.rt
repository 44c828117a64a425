//! What a text says that is an assignment.

ghost use Rattle.std.specs.Prelude.{◌≡◌, cond, drop, IfOk};
ghost use Rattle.lf_expression.specs.Exprs.{expr_said, operation_said, missing, number, or_else, at_time, spaced, applied};
ghost use Rattle.lf_map.specs.Letters.{int_of, after_digits};
ghost use Rattle.lf_map.specs.Assigns.{starts_digit, operation_by, after_call, plain_read, expr_read, target_of, expr_of};
ghost use Rattle.lf_map.specs.Said.{read_said, found_said};

use crate::numbers::{after_digits, divisor, int, is_digit, number, offset};
use crate::parts::{past, past_first};
use crate::strings::read_string;
use lf_core::OutOfMemory;
use lf_expression::{Expr, Operation, cut_before};
use lf_limits::MOST_NESTING;
use std::alloc::Global;

/// An expression that a text begins with, and what follows it.
#[derive(Drop)]
pub(crate) struct Read<'a> {
    expr: Expr,
    rest: &'a [u8],
}

fn starts_digit(text: &[u8]) -> bool
    ensures { result ≡ starts_digit text.now }
{
    match text.split_first() {
        None => false,
        Some((digit, _rest)) => is_digit(*digit),
    }
}

/// The call of the name on one argument, with what stands after the comma that follows it.
fn operation(name: &[u8], second: &[u8]) -> Operation
    ensures { operation_said result ≡ operation_by name.now second.now }
{
    if name == b"utc".as_slice() {
        return Operation::Utc;
    }
    if name == b"zoned".as_slice() {
        return Operation::Zoned(offset(second));
    }
    if name == b"sec".as_slice() {
        return Operation::WholeSecond;
    }
    if name == b"date".as_slice() {
        return Operation::Date;
    }
    if name == b"clock".as_slice() {
        return Operation::Clock;
    }
    if name == b"epoch".as_slice() {
        return Operation::Epoch;
    }
    if name == b"msec".as_slice() {
        return Operation::Millis;
    }
    if name == b"part".as_slice() {
        return Operation::Part(number(9, second) as u8);
    }
    if name == b"div".as_slice() {
        return Operation::Div(divisor(second));
    }
    Operation::Mul(int(second))
}

/// What follows the `-` that the text begins with: a number with it, or nothing of it.
fn after_dash<'a>(text: &'a [u8], rest: &'a [u8]) -> Read<'a>
    ensures { read_said result ≡ cond (starts_digit rest.now) (record { expr = number (int_of text.now); rest = after_digits rest.now }) (record { expr = missing; rest = rest.now }) }
{
    if starts_digit(rest) {
        return Read {
            expr: Expr::Number(int(text)),
            rest: after_digits(rest),
        };
    }
    Read {
        expr: Expr::Missing,
        rest,
    }
}

/// What the text begins with that is no call.
fn plain(alloc: Global, text: &[u8]) -> Result<Option<Read>, OutOfMemory>
    ensures { IfOk result (λ found. found_said found ≡ plain_read text.now) }
{
    let Some((first, rest)) = text.split_first() else {
        return Ok(None);
    };
    if *first == b'"' {
        let string = read_string(alloc, rest)?;
        return Ok(Some(Read {
            expr: Expr::Text(string.letters),
            rest: string.rest,
        }));
    }
    if starts_digit(text) {
        return Ok(Some(Read {
            expr: Expr::Number(int(text)),
            rest: after_digits(text),
        }));
    }
    if *first == b'-' {
        return Ok(Some(after_dash(text, rest)));
    }
    if *first == b's' && starts_digit(rest) {
        return Ok(Some(Read {
            expr: Expr::Slot(number(999, rest) as u32),
            rest: after_digits(rest),
        }));
    }
    Ok(None)
}

/// The expression that the text begins with, with at most so many calls in one another.
fn expr(alloc: Global, depth: u8, text: &[u8]) -> Result<Read, OutOfMemory>
    ensures { IfOk result (λ read. read_said read ≡ expr_read depth text.now) }
{
    if let Some(read) = plain(alloc, text)? {
        return Ok(read);
    }
    if depth == 0 {
        return Ok(Read {
            expr: Expr::Missing,
            rest: text,
        });
    }
    let name = cut_before(b'(', text).0;
    let first = expr(alloc, depth - 1, past(b'(', text))?;
    if name == b"or".as_slice() {
        let second = expr(alloc, depth - 1, past_first(first.rest))?;
        return or_else(alloc, first, second);
    }
    if name == b"at".as_slice() {
        let second = expr(alloc, depth - 1, past_first(first.rest))?;
        return at_time(alloc, first, second);
    }
    if name == b"line".as_slice() {
        let second = expr(alloc, depth - 1, past_first(first.rest))?;
        let third = expr(alloc, depth - 1, past_first(second.rest))?;
        return line(alloc, first, second, third);
    }
    applied(alloc, name, first)
}

fn or_else<'a>(alloc: Global, first: Read<'a>, second: Read<'a>) -> Result<Read<'a>, OutOfMemory>
    ensures { IfOk result (λ read. read_said read ≡ record { expr = or_else (expr_said first.entry.expr) (expr_said second.entry.expr); rest = after_call second.entry.rest.now }) }
{
    let expr = Expr::OrElse(Box::new(alloc, first.expr)?, Box::new(alloc, second.expr)?);
    Ok(Read {
        expr,
        rest: past(b')', second.rest),
    })
}

fn at_time<'a>(alloc: Global, first: Read<'a>, second: Read<'a>) -> Result<Read<'a>, OutOfMemory>
    ensures { IfOk result (λ read. read_said read ≡ record { expr = at_time (expr_said first.entry.expr) (expr_said second.entry.expr); rest = after_call second.entry.rest.now }) }
{
    let expr = Expr::AtTime(Box::new(alloc, first.expr)?, Box::new(alloc, second.expr)?);
    Ok(Read {
        expr,
        rest: past(b')', second.rest),
    })
}

fn line<'a>(
    alloc: Global,
    first: Read<'a>,
    second: Read<'a>,
    third: Read<'a>,
) -> Result<Read<'a>, OutOfMemory>
    ensures { IfOk result (λ read. read_said read ≡ record { expr = spaced (spaced (expr_said first.entry.expr) (expr_said second.entry.expr)) (expr_said third.entry.expr); rest = after_call third.entry.rest.now }) }
{
    let front = Expr::Spaced(Box::new(alloc, first.expr)?, Box::new(alloc, second.expr)?);
    let expr = Expr::Spaced(Box::new(alloc, front)?, Box::new(alloc, third.expr)?);
    Ok(Read {
        expr,
        rest: past(b')', third.rest),
    })
}

/// The call of the name, of which the first argument is read.
fn applied<'a>(alloc: Global, name: &[u8], first: Read<'a>) -> Result<Read<'a>, OutOfMemory>
    ensures { IfOk result (λ read. read_said read ≡ record { expr = applied (operation_by name.now (drop 1 first.entry.rest.now)) (expr_said first.entry.expr); rest = after_call first.entry.rest.now }) }
{
    let operation = operation(name, past_first(first.rest));
    let rest = past(b')', first.rest);
    let expr = Expr::Applied(operation, Box::new(alloc, first.expr)?);
    Ok(Read { expr, rest })
}

/// An assignment: what a slot of the target gets.
#[derive(Drop)]
pub(crate) struct Assign {
    pub(crate) target: u32,
    pub(crate) expr: Expr,
}

/// What a text says that is an assignment.
pub(crate) fn read_assign(alloc: Global, text: &[u8]) -> Result<Assign, OutOfMemory>
    ensures target { IfOk result (λ assign. assign.target ≡ target_of text.now) }
    ensures expr { IfOk result (λ assign. expr_said assign.expr ≡ expr_of text.now) }
{
    let target = number(999, past_first(text)) as u32;
    let read = expr(alloc, MOST_NESTING as u8, past(b'=', text))?;
    Ok(Assign {
        target,
        expr: read.expr,
    })
}
