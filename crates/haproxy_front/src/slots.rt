//! What a name gives under the flags that hold for it.

ghost use Rattle.std.specs.Prelude.{◌≡◌, IfOk};
ghost use Rattle.haproxy_front.specs.Letters.{header_word};
ghost use Rattle.haproxy_front.specs.Slots.{is_flagged as is_acted_on, path_letters, request_letters, flagged_numbers, kind_of as kind_by, plain_code, code_of as code_by, is_quoted as is_in_quotes, absence_of as absence_by, slot_of, given_of};

use crate::flags::Flags;
use crate::table::{Row, Sort};
use lf_core::{Class, OutOfMemory};
use lf_domain::Radix;
use lf_format::{Absent, Coding, Kind, Slot};
use lf_spelling::{Given, spelled};
use lf_time::HaTime;
use std::alloc::Global;

/// Whether quotes and escapes act on the values.
fn is_flagged(sort: Sort) -> bool
    ensures { result ≡ is_acted_on sort }
{
    match sort {
        Sort::Visible | Sort::Proxy | Sort::Path | Sort::Cookie | Sort::Query | Sort::Request =>
            true,
        _ => false,
    }
}

/// The bytes of a header but the space.
fn header_word() -> Class
    ensures { result ≡ header_word }
{
    Class::HEADER.both(Class::NO_SPACE)
}

fn path_class(flags: Flags) -> Class
    ensures { result ≡ path_letters flags }
{
    if flags.escapes {
        return header_word();
    }
    Class::NO_SPACE
}

fn request_class(flags: Flags) -> Class
    ensures { result ≡ request_letters flags }
{
    if flags.escapes {
        return Class::HEADER;
    }
    Class::ANY
}

/// The numbers from 0 up, with the flag X in hexadecimal digits.
fn numbers(flags: Flags, most: u32) -> Kind
    ensures { result ≡ flagged_numbers flags most }
{
    if flags.hexadecimal {
        return Kind::padded(Radix::Sixteen, 4, 0, i64::from(most));
    }
    Kind::numbers(0, i64::from(most))
}

/// The kind that a sort of values is.
fn kind_of(sort: Sort, flags: Flags) -> Kind
    ensures { result ≡ kind_by sort flags }
{
    match sort {
        Sort::Visible => Kind::texts(Class::VISIBLE, 1),
        Sort::Proxy => Kind::texts(Class::PROXY, 1),
        Sort::Path => Kind::texts(path_class(flags), 1),
        Sort::Cookie => Kind::texts(header_word(), 1),
        Sort::Query => Kind::texts(path_class(flags), 0),
        Sort::Request => Kind::texts(request_class(flags), 0),
        Sort::Ending => Kind::bounded_texts(Class::VISIBLE, 2, 2),
        Sort::CookieEnding => Kind::bounded_texts(Class::VISIBLE, 4, 4),
        Sort::Retries => Kind::texts(Class::COUNTS, 1),
        Sort::Captures => Kind::texts(Class::ANY, 0),
        Sort::Port => numbers(flags, 65535),
        Sort::Serial => numbers(flags, u32::MAX),
        Sort::Status => Kind::numbers(-1, 999),
        Sort::Timer => Kind::numbers(-1, 2_147_483_647),
        Sort::Size => Kind::numbers(0, i64::MAX),
        Sort::Count => Kind::numbers(0, 4_294_967_295),
        Sort::Time => Kind::Ha(HaTime),
    }
}

/// The code where no escapes act.
fn unescaped_code(sort: Sort) -> Coding
    ensures { result ≡ plain_code sort }
{
    match sort {
        Sort::Visible
        | Sort::Proxy
        | Sort::Path
        | Sort::Query
        | Sort::Request
        | Sort::Ending
        | Sort::CookieEnding
        | Sort::Retries => Coding::HaHash,
        Sort::Captures => Coding::HaCapture,
        _ => Coding::Raw,
    }
}

/// The code of a sort of values.
fn code_of(sort: Sort, flags: Flags) -> Coding
    ensures { result ≡ code_by sort flags }
{
    if is_flagged(sort) & flags.escapes {
        return Coding::HaEscape;
    }
    unescaped_code(sort)
}

/// Whether the values stand in quotes.
fn is_quoted(sort: Sort, flags: Flags) -> bool
    ensures { result ≡ is_in_quotes sort flags }
{
    is_flagged(sort) & flags.quotes
}

/// How absence is printed.
fn absence_of(row: Row, flags: Flags) -> Absent
    ensures { result ≡ absence_by row flags }
{
    if is_quoted(row.sort, flags) {
        return Absent::Blank;
    }
    row.absent
}

/// The slot of a name.
fn slot(alloc: Global, name: &str, row: Row, flags: Flags) -> Result<Slot, OutOfMemory>
    ensures { IfOk result (λ slot. slot ≡ slot_of name.now row flags) }
{
    let name = spelled(alloc, "%", name.as_bytes())?;
    Ok(Slot {
        name,
        kind: kind_of(row.sort, flags),
        code: code_of(row.sort, flags),
        absent: absence_of(row, flags),
        present: false,
        quoted: is_quoted(row.sort, flags),
    })
}

/// What a name gives: its slot, and braces around captures.
pub fn given(alloc: Global, name: &str, row: Row, flags: Flags) -> Result<Given, OutOfMemory>
    ensures { IfOk result (λ given. given ≡ given_of row.sort (slot_of name.now row flags)) }
{
    let slot = slot(alloc, name, row, flags)?;
    match row.sort {
        Sort::Captures => Ok(Given::Braced(slot)),
        _ => Ok(Given::Slot(slot)),
    }
}
