//! What each variable stands for.

ghost use Rattle.std.specs.Prelude.{◌≡◌, ◌∷◌, [], codes, IfOk};
ghost use Rattle.nginx_front.specs.Table.{sort_of, kind_of, code_of, absence_of, letters_of, code_by, absence_by};

use lf_core::{Class, OutOfMemory};
use lf_domain::{Radix, WordList, Words};
use lf_format::{Absent, Coding, Kind};
use lf_time::{ClfTime, IsoOffset};
use std::alloc::Global;

/// How texts are escaped: nginx's own way, as JSON strings, or not at all.
#[derive(Clone, Copy, Debug, PartialEq, Eq)]
pub enum Escape {
    /// `escape=default`.
    Default,
    /// `escape=json`.
    Json,
    /// `escape=none`.
    Off,
}

/// What sort of values a variable has.
#[derive(Clone, Copy, Debug, PartialEq, Eq)]
pub enum Sort {
    /// A text of visible letters, one or more.
    Visible,
    /// A text of visible letters.
    VisibleOrEmpty,
    /// A number from 0 to 65535.
    PortNumber,
    /// A number from 0 to 999, in three digits.
    Status,
    /// A number from 0.
    Count,
    /// Seconds, with a point and three digits.
    Seconds,
    /// A time like `10/Oct/2000:13:55:36 -0700`.
    LocalTime,
    /// A time like `2000-10-10T13:55:36-07:00`.
    IsoTime,
    /// Whether the request was pipelined: `p`, or `.` for not.
    Pipe,
    /// A text, as of each variable that isn't in the table.
    Free,
}

/// The sort of a variable, by its name without the dollar sign.
pub fn sort_of(name: &str) -> Sort
    ensures { result ≡ sort_of name.now }
{
    match name {
        "remote_addr"
        | "server_addr"
        | "server_protocol"
        | "request_method"
        | "scheme"
        | "request_id"
        | "host"
        | "hostname" => Sort::Visible,
        "server_name" => Sort::VisibleOrEmpty,
        "remote_port" | "server_port" => Sort::PortNumber,
        "status" => Sort::Status,
        "body_bytes_sent"
        | "bytes_sent"
        | "connection"
        | "connection_requests"
        | "request_length" => Sort::Count,
        "msec" | "request_time" => Sort::Seconds,
        "time_local" => Sort::LocalTime,
        "time_iso8601" => Sort::IsoTime,
        "pipe" => Sort::Pipe,
        _ => Sort::Free,
    }
}

/// The letters of a text that may be any.
fn letters_of(escape: Escape) -> Class
    ensures { result ≡ letters_of escape }
{
    match escape {
        Escape::Default | Escape::Json => Class::ANY,
        Escape::Off => Class::HEADER,
    }
}

/// The words for whether a request was pipelined.
fn pipe_words(alloc: Global) -> Result<WordList, OutOfMemory>
    ensures { IfOk result (λ list. list ≡ codes "p" ∷ codes "." ∷ []) }
{
    let mut list = WordList::new(alloc);
    list.push(b"p")?;
    list.push(b".")?;
    Ok(list)
}

/// The kind that a sort of values is.
pub fn kind_of(alloc: Global, escape: Escape, sort: Sort) -> Result<Kind, OutOfMemory>
    ensures { IfOk result (λ kind. kind ≡ kind_of escape sort) }
{
    match sort {
        Sort::Visible => Ok(Kind::texts(Class::VISIBLE, 1)),
        Sort::VisibleOrEmpty => Ok(Kind::texts(Class::VISIBLE, 0)),
        Sort::Free => Ok(Kind::texts(letters_of(escape), 0)),
        Sort::PortNumber => Ok(Kind::numbers(0, 65535)),
        Sort::Status => Ok(Kind::padded(Radix::Ten, 3, 0, 999)),
        Sort::Count => Ok(Kind::numbers(0, i64::MAX)),
        Sort::Seconds => Ok(Kind::fixed3(0, i64::MAX)),
        Sort::LocalTime => Ok(Kind::Clf(ClfTime { bracketed: false })),
        Sort::IsoTime => Ok(Kind::Iso(IsoOffset)),
        Sort::Pipe => Ok(Kind::Words(Words {
            list: pipe_words(alloc)?,
        })),
    }
}

/// The code of texts.
fn code_by(escape: Escape) -> Coding
    ensures { result ≡ code_by escape }
{
    match escape {
        Escape::Default => Coding::NginxHex,
        Escape::Json => Coding::NginxJson,
        Escape::Off => Coding::Raw,
    }
}

/// The code in which a sort of values is written.
pub fn code_of(escape: Escape, sort: Sort) -> Coding
    ensures { result ≡ code_of escape sort }
{
    match sort {
        Sort::Visible | Sort::VisibleOrEmpty | Sort::Free => code_by(escape),
        _ => Coding::Raw,
    }
}

/// How it is printed that a variable has no value.
fn absence_by(escape: Escape) -> Absent
    ensures { result ≡ absence_by escape }
{
    match escape {
        Escape::Default => Absent::Dash,
        Escape::Json | Escape::Off => Absent::Blank,
    }
}

/// How a sort of values prints that there is none.
pub fn absence_of(escape: Escape, sort: Sort) -> Absent
    ensures { result ≡ absence_of escape sort }
{
    match sort {
        Sort::Visible | Sort::VisibleOrEmpty | Sort::Free | Sort::PortNumber => absence_by(escape),
        _ => Absent::No,
    }
}
