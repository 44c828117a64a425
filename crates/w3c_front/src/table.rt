//! What each identifier stands for.

ghost use Rattle.std.specs.Prelude.{◌≡◌};
ghost use Rattle.w3c_front.specs.Table.{prefixes, is_listed, sort_in, draft_fields, prefixed_fields, bare_fields, iis_fields, kind_of, code_of, is_quoted, header_sort};

use lf_core::Class;
use lf_format::{Coding, Kind};
use lf_time::{W3cClock, W3cDate};

/// Whose identifiers are read.
#[derive(Clone, Copy, Debug, PartialEq, Eq)]
pub enum Language {
    /// The W3C's draft of an extended log file.
    Draft,
    /// IIS, whose fields are its own.
    Iis,
}

/// What sort of values a field has.
#[derive(Clone, Copy, Debug, PartialEq, Eq)]
pub enum Sort {
    /// A day like `2000-10-10`.
    Day,
    /// A time of the day like `13:55:36`.
    Clock,
    /// A text of digits and points, one or more.
    Decimal,
    /// A number from 0.
    Count,
    /// 0 or 1.
    Cached,
    /// A number from 0 to 999.
    Status,
    /// A text of `Class::VISIBLE`, one letter or more.
    Visible,
    /// A text of `Class::WORD`, one letter or more.
    Word,
    /// A text of `Class::HEADER` in quotes.
    Comment,
    /// A text of `Class::IIS_WORD`, one letter or more.
    Bare,
    /// A text of `Class::SPACED`, one letter or more, with `+` for a space.
    Spaced,
    /// A number from 0 to 65535.
    PortNumber,
    /// A number from 0 to 4294967295.
    SystemCode,
}

/// Whether the text is a prefix of the language.
pub fn is_prefix(language: Language, text: &[u8]) -> bool
    ensures { result ≡ is_listed (prefixes language) text.now }
{
    match language {
        Language::Draft => matches!(text, b"c" | b"s" | b"r" | b"cs" | b"sc" | b"sr" | b"rs"),
        Language::Iis => text == b"cs".as_slice(),
    }
}

/// The draft's fields without a prefix.
pub fn draft_field(name: &[u8]) -> Option<Sort>
    ensures { result ≡ sort_in draft_fields name.now }
{
    if name == b"date".as_slice() {
        return Some(Sort::Day);
    }
    if name == b"time".as_slice() {
        return Some(Sort::Clock);
    }
    if name == b"time-taken".as_slice() {
        return Some(Sort::Decimal);
    }
    if name == b"bytes".as_slice() {
        return Some(Sort::Count);
    }
    if name == b"cached".as_slice() {
        return Some(Sort::Cached);
    }
    None
}

/// The draft's fields after a prefix and a dash.
pub fn prefixed_field(name: &[u8]) -> Option<Sort>
    ensures { result ≡ sort_in prefixed_fields name.now }
{
    if name == b"status".as_slice() {
        return Some(Sort::Status);
    }
    if name == b"ip".as_slice() || name == b"dns".as_slice() || name == b"method".as_slice() {
        return Some(Sort::Visible);
    }
    if name == b"uri".as_slice()
        || name == b"uri-stem".as_slice()
        || name == b"uri-query".as_slice()
    {
        return Some(Sort::Word);
    }
    if name == b"comment".as_slice() {
        return Some(Sort::Comment);
    }
    None
}

fn is_bare_field(name: &[u8]) -> bool
    ensures { result ≡ is_listed bare_fields name.now }
{
    name == b"s-sitename".as_slice()
        || name == b"s-computername".as_slice()
        || name == b"s-ip".as_slice()
        || name == b"c-ip".as_slice()
        || name == b"cs-method".as_slice()
        || name == b"cs-version".as_slice()
        || name == b"cs-host".as_slice()
}

/// The fields of IIS, all but those with a header's name.
pub fn iis_field(name: &[u8]) -> Option<Sort>
    ensures { result ≡ sort_in iis_fields name.now }
{
    if name == b"date".as_slice() {
        return Some(Sort::Day);
    }
    if name == b"time".as_slice() {
        return Some(Sort::Clock);
    }
    if is_bare_field(name) {
        return Some(Sort::Bare);
    }
    if name == b"cs-uri-stem".as_slice()
        || name == b"cs-uri-query".as_slice()
        || name == b"cs-username".as_slice()
    {
        return Some(Sort::Spaced);
    }
    if name == b"s-port".as_slice() {
        return Some(Sort::PortNumber);
    }
    if name == b"sc-status".as_slice() || name == b"sc-substatus".as_slice() {
        return Some(Sort::Status);
    }
    if name == b"sc-win32-status".as_slice() {
        return Some(Sort::SystemCode);
    }
    if name == b"sc-bytes".as_slice()
        || name == b"cs-bytes".as_slice()
        || name == b"time-taken".as_slice()
    {
        return Some(Sort::Count);
    }
    None
}

/// What a header's field has.
pub fn header_sort(language: Language) -> Sort
    ensures { result ≡ header_sort language }
{
    match language {
        Language::Draft => Sort::Comment,
        Language::Iis => Sort::Spaced,
    }
}

/// The kind that a sort of values is.
pub fn kind_of(sort: Sort) -> Kind
    ensures { result ≡ kind_of sort }
{
    match sort {
        Sort::Day => Kind::Date(W3cDate),
        Sort::Clock => Kind::Clock(W3cClock),
        Sort::Decimal => Kind::texts(Class::DECIMAL, 1),
        Sort::Count => Kind::numbers(0, i64::MAX),
        Sort::Cached => Kind::numbers(0, 1),
        Sort::Status => Kind::numbers(0, 999),
        Sort::Visible => Kind::texts(Class::VISIBLE, 1),
        Sort::Word => Kind::texts(Class::WORD, 1),
        Sort::Comment => Kind::texts(Class::HEADER, 0),
        Sort::Bare => Kind::texts(Class::IIS_WORD, 1),
        Sort::Spaced => Kind::texts(Class::SPACED, 1),
        Sort::PortNumber => Kind::numbers(0, 65535),
        Sort::SystemCode => Kind::numbers(0, 4_294_967_295),
    }
}

/// The code of a sort of values.
pub fn code_of(sort: Sort) -> Coding
    ensures { result ≡ code_of sort }
{
    match sort {
        Sort::Comment => Coding::Doubled,
        Sort::Bare | Sort::Spaced => Coding::PlusSpace,
        _ => Coding::Raw,
    }
}

/// Whether a present value is printed in quotes.
pub fn is_quoted(sort: Sort) -> bool
    ensures { result ≡ is_quoted sort }
{
    sort == Sort::Comment
}
