//! One batch, shared among different numbers of jobs.

use crate::telling::read_text;
use lf_batch::IdleGate;
use lf_stream::{Mark, Sort};
use std::test::Fail;

const TEXT: &[u8] = b"1 20 x 300 007 4";

/// A dozen lines of the text, notes and long lines among them.
const LINES: [(u64, u32, u32, Sort); 12] = [
    (7, 0, 1, Sort::Line),
    (8, 2, 2, Sort::Line),
    (9, 0, 0, Sort::Note),
    (10, 5, 1, Sort::Line),
    (11, 7, 3, Sort::Line),
    (12, 0, 0, Sort::Long),
    (13, 11, 3, Sort::Line),
    (14, 15, 1, Sort::Line),
    (15, 16, 0, Sort::Line),
    (16, 0, 16, Sort::Line),
    (17, 0, 0, Sort::Note),
    (18, 2, 1, Sort::Line),
];

const VERDICTS: &str =
    "7 1;8 20;9 Note;10 Unread;11 300;12 Long;13 Unread;14 4;15 Unread;16 Unread;17 Note;18 2;";

#[test]
fn any_number_of_jobs_gives_one_answer(rt: HostRuntime) -> Result<(), Fail> {
    let marks = LINES.map(|(number, start, len, sort)| Mark {
        number,
        start,
        len,
        sort,
    });
    for jobs in [1, 2, 3, 5, 64] {
        let told = read_text(&rt, rt.alloc(), TEXT, &marks, jobs, &IdleGate)?;
        assert_eq!(rt; told.as_str(), VERDICTS, "by {jobs} jobs");
    }
    let none = read_text(&rt, rt.alloc(), TEXT, &[], 64, &IdleGate)?;
    assert_eq!(rt; none.as_str(), "");
    Ok(())
}
