//! How a run ended.

/// How a run ended, as the program's exit status.
#[derive(Clone, Copy, Debug, PartialEq, Eq)]
pub struct Status(pub u8);

impl Status {
    /// The output was written, and nothing was listed.
    pub const DONE: Status = Status(0);
    /// The source format isn't readable.
    pub const AMBIGUOUS: Status = Status(1);
    /// The words, a format, a narrowing or a map is refused, or a record's line is a note.
    pub const USAGE: Status = Status(2);
    /// The run ended, and a line was listed.
    pub const PARTIAL: Status = Status(3);
    /// The source failed.
    pub const SOURCE_FAULT: Status = Status(4);
    /// A sink failed.
    pub const SINK_FAULT: Status = Status(5);
    /// Memory ran out.
    pub const NO_MEMORY: Status = Status(6);
    /// The source format is larger than what is compiled.
    pub const TOO_LARGE: Status = Status(7);
    /// As many bytes were taken as a run may take.
    pub const ENDLESS: Status = Status(8);
}
