//! Expressions of a field map.

ghost use Rattle.std.specs.Prelude.{◌≤ℤ◌, pos};
ghost use Rattle.lf_layout.specs.Layouts.{IsOffset};

use lf_core::Bytes;

/// An offset under a day, in minutes east.
#[derive(Clone, Copy)]
pub struct Offset {
    pub minutes: i16,
    ghost under_a_day: { IsOffset minutes },
}

/// A number that may divide another.
#[derive(Clone, Copy)]
pub struct Divisor {
    pub value: i64,
    ghost positive: { pos 1 ≤ℤ value },
}

/// What a call makes of its first argument.
#[derive(Clone, Copy)]
pub enum Operation {
    Utc,
    Zoned(Offset),
    WholeSecond,
    Date,
    Clock,
    Epoch,
    Millis,
    /// The part of the number, from 1, of a text cut at each space.
    Part(u8),
    Div(Divisor),
    Mul(i64),
}

/// An expression: what a slot of the target gets.
#[derive(Drop)]
pub enum Expr {
    Missing,
    Number(i64),
    Text(Bytes),
    /// A slot of the source, counted from 1.
    Slot(u32),
    /// The first, and the second where the first is missing.
    OrElse(Box<Expr>, Box<Expr>),
    /// The moment of a day and a clock.
    AtTime(Box<Expr>, Box<Expr>),
    /// Two texts with a space between them.
    Spaced(Box<Expr>, Box<Expr>),
    Applied(Operation, Box<Expr>),
}
