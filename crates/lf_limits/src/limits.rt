//! The constants of the code. `laws::constants_are_the_limits` shows them equal to the numbers of `specs/Limits.antt`.

/// The most bytes of a line that isn't long, its end left out.
pub const MOST_LINE_BYTES: usize = 16_777_216;

/// The greatest size of a format that is compiled.
pub const MOST_SIZE: u64 = 8_192;

/// The most slots of a format.
pub const MOST_SLOTS: u32 = 128;

/// The most bytes of a word of the command line.
pub const MOST_WORD_BYTES: usize = 1_048_576;

/// The most bytes of a text that a front, a narrowing or a field map is read from.
pub const MOST_TEXT_BYTES: usize = 1_048_576;

/// The most bytes of a format's literals together.
pub const MOST_LITERAL_BYTES: usize = 1_048_576;

/// The most bytes of a list's words together.
pub const MOST_LIST_BYTES: usize = 1_000_000;

/// The greatest bound of a text's length.
pub const MOST_LENGTH: u32 = 99_999;

/// The most jobs that share the lines of a batch.
pub const MOST_JOBS: u32 = 64;

/// The most sets of points of a reading table.
pub const MOST_SETS: usize = 65_536;

/// The most calls of a field map in one another.
pub const MOST_NESTING: u32 = 16;

/// The most records that are generated.
pub const MOST_RECORDS: u32 = 1_000_000;

/// The most bytes that one run takes from its source.
pub const MOST_RUN_BYTES: u64 = 4_611_686_018_427_387_904;

/// The bytes of the buffer that holds the lines of a stream.
pub const BUFFER_BYTES: usize = 33_554_432;

/// The room that the buffer has at least where no whole line is held.
pub const LEAST_ROOM: usize = 3_000_000;

/// The most lines of a batch.
pub const MOST_MARKS: usize = 1_024;
