//! What each letter stands for.

ghost use Rattle.std.specs.Prelude.{◌≡◌, ◌==◌, ◌∷◌, [], not, codes, IfOk};
ghost use Rattle.std.specs.List.{list_all};
ghost use Rattle.std.specs.Option.{option_copied};
ghost use Rattle.apache_front.specs.Table.{row_of, kind_of, takes, is_listed};

use lf_core::{Class, OutOfMemory};
use lf_domain::{QueryText, WordList, Words};
use lf_format::{Absent, Kind};
use lf_time::ClfTime;
use std::alloc::Global;

/// The names that a letter takes.
#[derive(Clone, Copy, Debug, PartialEq, Eq)]
pub enum Names {
    /// The letter takes no name.
    Never,
    /// The letter needs a name, and takes any.
    Always,
    /// `c`, or none.
    Client,
    /// `canonical`, `local` or `remote`, or none.
    Port,
    /// `pid` or `tid`, or none.
    Process,
    /// `s`, `ms` or `us`, or none.
    Unit,
}

/// What sort of values a letter stands for.
#[derive(Clone, Copy, Debug, PartialEq, Eq)]
pub enum Sort {
    /// A text of visible letters, one or more.
    Visible,
    /// A text of any bytes, one or more.
    Filled,
    /// A text of any bytes.
    Free,
    /// Nothing, or `?` and then any bytes.
    Query,
    /// A number from 0.
    Count,
    /// A number from 0, with zero as `-`.
    DashCount,
    /// A number from 0 to 65535.
    PortNumber,
    /// A number from 100 to 999.
    Status,
    /// A time in brackets.
    Time,
    /// What becomes of the connection: `X`, `+` or `-`.
    Connection,
}

/// What a letter stands for.
#[derive(Clone, Copy, Debug, PartialEq, Eq)]
pub struct Row {
    pub names: Names,
    pub sort: Sort,
    /// How it is printed that there is no value.
    pub absent: Absent,
}

/// The row of a letter.
pub fn find_row(letter: u8) -> Option<Row>
    ensures { result ≡ row_of letter }
{
    let (names, sort, absent) = match letter {
        b'a' | b'h' => (Names::Client, Sort::Visible, Absent::Dash),
        b'A' | b'H' | b'l' | b'L' | b'm' | b'R' | b'v' | b'V' => {
            (Names::Never, Sort::Visible, Absent::Dash)
        }
        b'f' | b'u' | b'U' => (Names::Never, Sort::Filled, Absent::Dash),
        b'r' => (Names::Never, Sort::Free, Absent::Dash),
        b'C' | b'e' | b'i' | b'n' | b'o' => (Names::Always, Sort::Free, Absent::Dash),
        b'q' => (Names::Never, Sort::Query, Absent::No),
        b'B' | b'D' | b'I' | b'k' | b'O' => (Names::Never, Sort::Count, Absent::No),
        b'b' => (Names::Never, Sort::DashCount, Absent::No),
        b'p' => (Names::Port, Sort::PortNumber, Absent::No),
        b'P' => (Names::Process, Sort::Count, Absent::No),
        b'T' => (Names::Unit, Sort::Count, Absent::No),
        b's' => (Names::Never, Sort::Status, Absent::Dash),
        b't' => (Names::Never, Sort::Time, Absent::No),
        b'X' => (Names::Never, Sort::Connection, Absent::No),
        _ => return None,
    };
    Some(Row {
        names,
        sort,
        absent,
    })
}

/// The words for what becomes of a connection.
fn connection_words(alloc: Global) -> Result<WordList, OutOfMemory>
    ensures { IfOk result (λ list. list ≡ codes "X" ∷ codes "+" ∷ codes "-" ∷ []) }
{
    let mut list = WordList::new(alloc);
    list.push(b"X")?;
    list.push(b"+")?;
    list.push(b"-")?;
    Ok(list)
}

/// The kind that a sort of values is.
pub fn kind_of(alloc: Global, sort: Sort) -> Result<Kind, OutOfMemory>
    ensures { IfOk result (λ kind. kind ≡ kind_of sort) }
{
    match sort {
        Sort::Visible => Ok(Kind::texts(Class::VISIBLE, 1)),
        Sort::Filled => Ok(Kind::texts(Class::ANY, 1)),
        Sort::Free => Ok(Kind::texts(Class::ANY, 0)),
        Sort::Query => Ok(Kind::Query(QueryText { class: Class::ANY })),
        Sort::Count => Ok(Kind::numbers(0, i64::MAX)),
        Sort::DashCount => Ok(Kind::dashed(0, i64::MAX)),
        Sort::PortNumber => Ok(Kind::numbers(0, 65535)),
        Sort::Status => Ok(Kind::numbers(100, 999)),
        Sort::Time => Ok(Kind::Clf(ClfTime { bracketed: true })),
        Sort::Connection => Ok(Kind::Words(Words {
            list: connection_words(alloc)?,
        })),
    }
}

fn is_name(names: Names, name: &[u8]) -> bool
    ensures { result ≡ is_listed names name.now }
{
    match names {
        Names::Never => false,
        Names::Always => true,
        Names::Client => matches!(name, b"c"),
        Names::Port => {
            name == b"canonical".as_slice()
                || name == b"local".as_slice()
                || name == b"remote".as_slice()
        }
        Names::Process => matches!(name, b"pid" | b"tid"),
        Names::Unit => matches!(name, b"s" | b"ms" | b"us"),
    }
}

fn is_one_line(name: &[u8]) -> bool
    ensures { result ≡ list_all (λ c. not (c == 10)) name.now }
{
    name.iter().all(|b| *b != b'\n')
}

/// Whether a letter takes the name, or takes none.
pub fn can_take(names: Names, name: Option<&[u8]>) -> bool
    ensures { result ≡ takes names (option_copied name.entry) }
{
    let Some(name) = name else {
        return names != Names::Always;
    };
    if name.is_empty() {
        return false;
    }
    is_one_line(name) && is_name(names, name)
}
