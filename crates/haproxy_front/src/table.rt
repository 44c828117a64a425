//! What each name stands for.

ghost use Rattle.std.specs.Prelude.{◌≡◌};
ghost use Rattle.haproxy_front.specs.Table.{row_of};

use lf_format::Absent;

/// What sort of values a name stands for.
#[derive(Clone, Copy, Debug, PartialEq, Eq)]
pub enum Sort {
    /// An address or a word of the protocol.
    Visible,
    /// The name of a frontend, a backend or a server.
    Proxy,
    /// A path, one letter or more and no space.
    Path,
    /// A cookie or an identifier.
    Cookie,
    /// The query of a path, which may be empty.
    Query,
    /// A whole request line.
    Request,
    /// How a session ended, in two letters.
    Ending,
    /// The same, and what became of the cookies, in four letters.
    CookieEnding,
    /// How often the server was tried again, in digits and `+`.
    Retries,
    /// Captured headers, joined by line feeds, and printed in braces.
    Captures,
    /// A number from 0 to 65535.
    Port,
    /// A second, a request's number or a process.
    Serial,
    /// A number from -1 to 999.
    Status,
    /// Milliseconds, or -1.
    Timer,
    /// A number of bytes.
    Size,
    /// A number of connections, or a place in a queue.
    Count,
    /// A time without an offset.
    Time,
}

/// What a name stands for, and how absence is printed where no flag acts.
#[derive(Clone, Copy, Debug, PartialEq, Eq)]
pub struct Row {
    pub sort: Sort,
    pub absent: Absent,
}

impl Row {
    fn of(sort: Sort, absent: Absent) -> Row
        ensures { result ≡ record { sort = sort; absent = absent } }
    {
        Row { sort, absent }
    }
}

/// The row of a name.
pub fn find_row(name: &str) -> Option<Row>
    ensures { result ≡ row_of name.now }
{
    match name {
        "ci" | "fi" | "bi" | "si" | "H" | "HM" | "HV" => Some(Row::of(Sort::Visible, Absent::Dash)),
        "f" | "ft" | "b" | "s" => Some(Row::of(Sort::Proxy, Absent::Dash)),
        "HP" | "HU" => Some(Row::of(Sort::Path, Absent::Dash)),
        "ID" | "CC" | "CS" => Some(Row::of(Sort::Cookie, Absent::Dash)),
        "HQ" => Some(Row::of(Sort::Query, Absent::Dash)),
        "r" => Some(Row::of(Sort::Request, Absent::Dash)),
        "ts" => Some(Row::of(Sort::Ending, Absent::No)),
        "tsc" => Some(Row::of(Sort::CookieEnding, Absent::No)),
        "rc" => Some(Row::of(Sort::Retries, Absent::No)),
        "hr" | "hs" => Some(Row::of(Sort::Captures, Absent::No)),
        "cp" => Some(Row::of(Sort::Port, Absent::No)),
        "fp" | "bp" | "sp" => Some(Row::of(Sort::Port, Absent::Dash)),
        "Ts" | "rt" | "pid" => Some(Row::of(Sort::Serial, Absent::No)),
        "ST" => Some(Row::of(Sort::Status, Absent::No)),
        "Ta" | "Tc" | "Td" | "Th" | "Ti" | "Tq" | "TR" | "Tr" | "Tt" | "Tw" => Some(Row::of(
            Sort::Timer,
            Absent::No,
        )),
        "B" | "U" => Some(Row::of(Sort::Size, Absent::No)),
        "ac" | "bc" | "fc" | "sc" | "sq" | "bq" => Some(Row::of(Sort::Count, Absent::No)),
        "t" | "tr" => Some(Row::of(Sort::Time, Absent::No)),
        _ => None,
    }
}
