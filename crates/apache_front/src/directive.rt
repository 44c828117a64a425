//! What begins with a backslash or a percent sign, taken apart from the left.

ghost use Rattle.std.specs.Prelude.{◌++◌, ◌≡◌, ℕ, ◌∷◌, length, List, IfOk};
ghost use Rattle.std.specs.List.{prefix_len};
ghost use Rattle.std.specs.Option.{option_copied};
ghost use Rattle.std.specs.Str.{IsUtf8};
ghost use Rattle.lf_spelling.specs.Cuts.{EndsText};
ghost use Rattle.lf_spelling.specs.Texts.{is_digit};
ghost use Rattle.apache_front.specs.Directive.{is_flag, is_status_list, are_flags, flags_of, side_of, row_slot};
ghost use Rattle.apache_front.specs.Table.{code_of};
ghost use Rattle.apache_front.specs.Reading.{on_backslash, on_percent, on_directive, Gives, GivesLetter};

use crate::table::{Row, can_take, find_row, kind_of};
use lf_core::OutOfMemory;
use lf_format::{Absent, Coding, Kind, Slot};
use lf_spelling::{Cause, Given, ItemFault, Taken, cut_part, spelled};
use std::alloc::Global;

/// What follows a backslash.
pub fn backslash(after: &[u8]) -> Result<Taken, ItemFault>
    ensures { Gives (on_backslash after.now) (92 ∷ after.now) result }
{
    let Some((second, _rest)) = after.split_first() else {
        return Ok(Taken {
            given: Given::Byte(b'\\'),
            len: 1,
        });
    };
    let byte = match *second {
        b'n' => return Err(ItemFault::Fault(Cause::LineBreak)),
        b'"' => b'"',
        b'\\' => b'\\',
        b't' => b'\t',
        _ => {
            return Ok(Taken {
                given: Given::Byte(b'\\'),
                len: 1,
            });
        }
    };
    Ok(Taken {
        given: Given::Byte(byte),
        len: 2,
    })
}

/// What follows a percent sign.
pub fn percent(alloc: Global, after: &[u8]) -> Result<Taken, ItemFault>
    requires { EndsText (37 ∷ after.now) }
    ensures { Gives (on_percent after.now) (37 ∷ after.now) result }
{
    if let Some((second, _rest)) = after.split_first()
        && *second == b'%'
    {
        return Ok(Taken {
            given: Given::Byte(b'%'),
            len: 2,
        });
    }
    directive(alloc, after)
}

fn is_flag_byte(b: u8) -> bool
    ensures { result ≡ is_flag b }
{
    is_digit_byte(b) || b == b','
}

fn is_digit_byte(b: u8) -> bool
    ensures { result ≡ is_digit b }
{
    48 <= b && b <= 57
}

fn flag_run(text: &[u8]) -> usize
    ensures { result ≡ prefix_len is_flag text.now }
{
    text.iter().take_while(|b| is_flag_byte(**b)).count()
}

/// The length of the flags.
fn flags_len(text: &[u8]) -> usize
    ensures { result ≡ length (flags_of text.now) }
{
    let Some((first, rest)) = text.split_first() else {
        return 0;
    };
    if *first == b'!' {
        return 1 + flag_run(rest);
    }
    flag_run(text)
}

fn is_list(flags: &[u8]) -> bool
    ensures { result ≡ is_status_list flags.now }
{
    let mut rest = flags;
    while 3 <= rest.len() {
        if !(is_digit_byte(rest[0]) && is_digit_byte(rest[1]) && is_digit_byte(rest[2])) {
            return false;
        }
        if rest.len() == 3 {
            return true;
        }
        if rest[3] != b',' {
            return false;
        }
        rest = rest.split_at(4).1;
    }
    false
}

fn is_flags(flags: &[u8]) -> bool
    ensures { result ≡ are_flags flags.now }
{
    let Some((first, rest)) = flags.split_first() else {
        return true;
    };
    if *first == b'!' {
        return is_list(rest);
    }
    is_list(flags)
}

/// The length of the side.
fn side_len(text: &[u8]) -> usize
    ensures { result ≡ length (side_of text.now) }
{
    let Some((first, _rest)) = text.split_first() else {
        return 0;
    };
    if *first == b'<' || *first == b'>' {
        return 1;
    }
    0
}

/// The code of a kind.
fn code(kind: &Kind) -> Coding
    ensures { result ≡ code_of kind.now }
{
    match kind {
        Kind::Text(_) | Kind::Query(_) => Coding::ApacheHex,
        _ => Coding::Raw,
    }
}

/// The slot of a row, named by a percent sign and the start of the text.
fn slot(alloc: Global, front: &[u8], row: Row, absent: Absent) -> Result<Slot, OutOfMemory>
    requires { IsUtf8 front.now }
    ensures { IfOk result (λ slot. slot ≡ row_slot (37 ∷ front.now) row absent) }
{
    let name = spelled(alloc, "%", front)?;
    let kind = kind_of(alloc, row.sort)?;
    let code = code(&kind);
    Ok(Slot {
        name,
        kind,
        code,
        absent,
        present: false,
        quoted: false,
    })
}

/// The letter and its slot.
fn letter(
    alloc: Global,
    text: &[u8],
    has_flags: bool,
    name: Option<&[u8]>,
    tail: &[u8],
) -> Result<Taken, ItemFault>
    requires last { (front : List ℕ) × (text.now ≡ front ++ tail.now) }
    requires text { EndsText (37 ∷ text.now) }
    ensures { GivesLetter text.now has_flags (option_copied name.entry) tail.now result }
{
    let Some((letter, after)) = tail.split_first() else {
        return Err(ItemFault::Fault(Cause::Unclosed));
    };
    let Some(row) = find_row(*letter) else {
        return Err(ItemFault::Fault(Cause::UnknownName));
    };
    if !can_take(row.names, name) {
        return Err(ItemFault::Fault(Cause::BadName));
    }
    let len = text.len() - after.len();
    let absent = if has_flags { Absent::Dash } else { row.absent };
    let slot = slot(alloc, text.split_at(len).0, row, absent)?;
    Ok(Taken {
        given: Given::Slot(slot),
        len: 1 + len,
    })
}

/// A directive, by what follows its percent sign.
fn directive(alloc: Global, text: &[u8]) -> Result<Taken, ItemFault>
    requires { EndsText (37 ∷ text.now) }
    ensures { Gives (on_directive text.now) (37 ∷ text.now) result }
{
    let (flags, sided) = text.split_at(flags_len(text));
    if !is_flags(flags) {
        return Err(ItemFault::Fault(Cause::BadFlags));
    }
    let has_flags = !flags.is_empty();
    let named = sided.split_at(side_len(sided)).1;
    let Some(cut) = cut_part(named, b'{', b'}') else {
        return Err(ItemFault::Fault(Cause::Unclosed));
    };
    letter(alloc, text, has_flags, cut.part, cut.rest)
}
