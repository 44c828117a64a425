//! What is said of a line.

/// What a line is: one to be read, a note, or one that is too long.
#[derive(Clone, Copy, Debug, PartialEq, Eq)]
pub enum Sort {
    Line,
    Note,
    Long,
}

/// The number and the sort of a line, and where its bytes stand in a text.
/// Of a note and of a long line no bytes are kept: `start` and `len` are 0.
#[derive(Clone, Copy, Debug)]
pub struct Mark {
    /// The number of the line in its stream, counted from 1.
    pub number: u64,
    pub start: u32,
    pub len: u32,
    pub sort: Sort,
}

/// The bytes of a line without its end, or that it is a note or too long.
#[derive(Clone, Copy, Debug)]
pub enum Body<'a> {
    Line(&'a [u8]),
    Note,
    Long,
}

/// A line of a stream and its number, from 1.
#[derive(Clone, Copy, Debug)]
pub struct Numbered<'a> {
    pub number: u64,
    pub body: Body<'a>,
}

/// Lines of a stream, by marks of a text.
#[derive(Clone, Copy, Debug)]
pub struct Batch<'a> {
    /// The bytes among which the lines stand.
    pub text: &'a [u8],
    /// A mark for each line, in order.
    pub marks: &'a [Mark],
}
