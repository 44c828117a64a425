//! What each command stands for.

ghost use Rattle.std.specs.Prelude.{◌≡◌, ◌==◌, not};
ghost use Rattle.std.specs.List.{list_all};
ghost use Rattle.std.specs.Option.{option_copied};
ghost use Rattle.envoy_front.specs.Table.{sort_of, is_header as is_header_name, is_data as is_data_name, is_address as is_address_name, is_word as is_word_name, is_count as is_count_name};
ghost use Rattle.envoy_front.specs.Table.{is_in_name, last_name, letters_of, has_argument as sort_has_argument, is_argument_of, takes, takes_length, sized as sized_texts, kind_of as kind_of_sort, absence};

use crate::length::{is_length, number};
use lf_core::Class;
use lf_format::{Absent, Kind};
use lf_spelling::cut_before;
use lf_time::IsoMillisZ;

/// What sort of values a command stands for.
#[derive(Clone, Copy, Debug, PartialEq, Eq)]
pub enum Sort {
    /// The value of a header; the command has an argument, and may have a length.
    Header,
    /// What filters have noted; the command has an argument, and may have a length.
    Data,
    /// An address or a name: visible letters, one or more.
    Visible,
    /// A text of a header's bytes, one or more.
    Reason,
    /// A number from 0 to 999.
    Status,
    /// A number from 0: bytes, milliseconds, or which connection it is.
    Count,
    /// A time, which is never missing.
    Start,
}

fn is_header(name: &[u8]) -> bool
    ensures { result ≡ is_header_name name.now }
{
    name == b"REQ".as_slice() || name == b"RESP".as_slice() || name == b"TRAILER".as_slice()
}

fn is_data(name: &[u8]) -> bool
    ensures { result ≡ is_data_name name.now }
{
    name == b"DYNAMIC_METADATA".as_slice() || name == b"FILTER_STATE".as_slice()
}

fn is_address(name: &[u8]) -> bool
    ensures { result ≡ is_address_name name.now }
{
    name == b"UPSTREAM_HOST".as_slice()
        || name == b"UPSTREAM_CLUSTER".as_slice()
        || name == b"UPSTREAM_LOCAL_ADDRESS".as_slice()
        || name == b"DOWNSTREAM_LOCAL_ADDRESS".as_slice()
        || name == b"DOWNSTREAM_REMOTE_ADDRESS".as_slice()
        || name == b"DOWNSTREAM_REMOTE_ADDRESS_WITHOUT_PORT".as_slice()
}

fn is_word(name: &[u8]) -> bool
    ensures { result ≡ is_word_name name.now }
{
    name == b"PROTOCOL".as_slice()
        || name == b"RESPONSE_FLAGS".as_slice()
        || name == b"RESPONSE_CODE_DETAILS".as_slice()
        || name == b"REQUESTED_SERVER_NAME".as_slice()
        || name == b"ROUTE_NAME".as_slice()
        || name == b"HOSTNAME".as_slice()
}

fn is_count(name: &[u8]) -> bool
    ensures { result ≡ is_count_name name.now }
{
    name == b"BYTES_RECEIVED".as_slice()
        || name == b"BYTES_SENT".as_slice()
        || name == b"DURATION".as_slice()
        || name == b"REQUEST_DURATION".as_slice()
        || name == b"RESPONSE_DURATION".as_slice()
        || name == b"RESPONSE_TX_DURATION".as_slice()
        || name == b"CONNECTION_ID".as_slice()
}

/// The sort of the command of this name.
pub fn find_sort(name: &[u8]) -> Option<Sort>
    ensures { result ≡ sort_of name.now }
{
    if is_header(name) {
        return Some(Sort::Header);
    }
    if is_data(name) {
        return Some(Sort::Data);
    }
    if is_address(name) || is_word(name) {
        return Some(Sort::Visible);
    }
    if name == b"UPSTREAM_TRANSPORT_FAILURE_REASON".as_slice() {
        return Some(Sort::Reason);
    }
    if name == b"RESPONSE_CODE".as_slice() {
        return Some(Sort::Status);
    }
    if is_count(name) {
        return Some(Sort::Count);
    }
    if name == b"START_TIME".as_slice() {
        return Some(Sort::Start);
    }
    None
}

fn has_argument(sort: Sort) -> bool
    ensures { result ≡ sort_has_argument sort }
{
    matches!(sort, Sort::Header | Sort::Data)
}

fn is_name(text: &[u8]) -> bool
    ensures { result ≡ list_all is_in_name text.now }
{
    text.iter().all(|b| *b != b'?')
}

/// Whether an argument is the name of a header, or two with `?` between them.
fn are_names(argument: &[u8]) -> bool
    ensures { result ≡ is_argument_of Sort.Header argument.now }
{
    let (first, others) = cut_before(argument, b'?');
    let Some((_mark, second)) = others.split_first() else {
        return !first.is_empty();
    };
    if first.is_empty() || second.is_empty() {
        return false;
    }
    is_name(second)
}

/// The last name of an argument.
fn last(argument: &[u8]) -> &[u8]
    ensures { result.now ≡ last_name argument.now }
{
    let Some((_mark, second)) = cut_before(argument, b'?').1.split_first() else {
        return argument;
    };
    second
}

fn is_one_line(argument: &[u8]) -> bool
    ensures { result ≡ list_all (λ b. not (b == 10)) argument.now }
{
    argument.iter().all(|b| *b != b'\n')
}

/// Whether a command takes the argument, or takes none.
pub fn can_take(sort: Sort, argument: Option<&[u8]>) -> bool
    ensures { result ≡ takes sort (option_copied argument.entry) }
{
    let Some(argument) = argument else {
        return !has_argument(sort);
    };
    if argument.is_empty() || !is_one_line(argument) {
        return false;
    }
    match sort {
        Sort::Header => are_names(argument),
        Sort::Data => true,
        _ => false,
    }
}

/// Whether a command takes the length, or none.
pub fn can_take_length(sort: Sort, digits: Option<&[u8]>) -> bool
    ensures { result ≡ takes_length sort (option_copied digits.entry) }
{
    let Some(digits) = digits else {
        return true;
    };
    has_argument(sort) && is_length(digits)
}

/// The letters of the value of a header.
fn letters(argument: Option<&[u8]>) -> Class
    ensures { result ≡ letters_of (option_copied argument.entry) }
{
    let Some(argument) = argument else {
        return Class::HEADER;
    };
    let Some((first, _rest)) = last(argument).split_first() else {
        return Class::HEADER;
    };
    if *first == b':' {
        return Class::VISIBLE;
    }
    Class::HEADER
}

/// The texts of a class, of at most so many letters where a length stands.
fn sized(class: Class, digits: Option<&[u8]>) -> Kind
    ensures { result ≡ sized_texts class (option_copied digits.entry) }
{
    let Some(digits) = digits else {
        return Kind::texts(class, 0);
    };
    Kind::bounded_texts(class, 0, number(digits))
}

/// The kind that a sort of values is.
pub fn kind_of(sort: Sort, argument: Option<&[u8]>, digits: Option<&[u8]>) -> Kind
    ensures { result ≡ kind_of_sort sort (option_copied argument.entry) (option_copied digits.entry) }
{
    match sort {
        Sort::Header => sized(letters(argument), digits),
        Sort::Data => sized(Class::HEADER, digits),
        Sort::Visible => Kind::texts(Class::VISIBLE, 1),
        Sort::Reason => Kind::texts(Class::HEADER, 1),
        Sort::Status => Kind::numbers(0, 999),
        Sort::Count => Kind::numbers(0, i64::MAX),
        Sort::Start => Kind::IsoMillis(IsoMillisZ),
    }
}

/// What a slot of the sort prints for a missing value.
pub fn absent(sort: Sort) -> Absent
    ensures { result ≡ absence sort }
{
    match sort {
        Sort::Start => Absent::No,
        _ => Absent::Dash,
    }
}
