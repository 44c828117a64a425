//! Numbers of a range, read and written as JSON.
ghost use Rattle.std.specs.Prelude.{◌≡◌, ◌++◌, ◌∷◌, IfOk, IfSome, OnOk};
ghost use Rattle.lf_core.specs.Adds.{BeginsWith};
ghost use Rattle.lf_digits.specs.Reads.{ReadsNumber};
ghost use Rattle.lf_number.specs.Numbers.{dash_text, number_text, padded_text, thousandths_text};

use crate::digits::{after_byte, front_number, front_zeros, three_digits};
use itoa::Buffer;
use lf_core::{Bytes, OutOfMemory};

/// Appends the number's digits.
#[tactic(auto, using(lf_number::proofs::StdDecimals::number_text_std))]
fn write_number(number: i64, into: &mut Bytes) -> Result<(), OutOfMemory>
    ensures ok { OnOk result (into.new ≡ into.old ++ number_text number) }
    ensures kept { BeginsWith into.new into.old }
{
    let mut buffer = Buffer::new();
    into.extend(buffer.format(number).as_bytes())?;
    Ok(())
}

/// Reads what follows the minus of a number from `lo` to `hi`, and adds the number; tells what is left.
fn read_negative<'a>(
    lo: i64,
    hi: i64,
    text: &'a [u8],
    into: &mut Bytes,
) -> Result<Option<&'a [u8]>, OutOfMemory>
    ensures read { IfOk result (λ found. IfSome found (λ left. ReadsNumber number_text lo hi (45 ∷ text.now) left.now into.old into.new)) }
    ensures kept { BeginsWith into.new into.old }
{
    let Some((magnitude, digits, left)) = front_number(text) else {
        return Ok(None);
    };
    if magnitude < 1 {
        return Ok(None);
    }
    let number = -magnitude;
    if number < lo || hi < number {
        return Ok(None);
    }
    into.push(b'-')?;
    into.extend(digits)?;
    Ok(Some(left))
}

/// Reads a number from `lo` to `hi` in decimal, and adds it; tells what is left, and none where the text doesn't fit.
pub fn read_number<'a>(
    lo: i64,
    hi: i64,
    text: &'a [u8],
    into: &mut Bytes,
) -> Result<Option<&'a [u8]>, OutOfMemory>
    ensures read { IfOk result (λ found. IfSome found (λ left. ReadsNumber number_text lo hi text.now left.now into.old into.new)) }
    ensures kept { BeginsWith into.new into.old }
{
    let Some((number, digits, left)) = front_number(text) else {
        let Some(more) = after_byte(b'-', text) else {
            return Ok(None);
        };
        return read_negative(lo, hi, more, into);
    };
    if number < lo || hi < number {
        return Ok(None);
    }
    into.extend(digits)?;
    Ok(Some(left))
}

/// Reads a number from `lo` to `hi` in decimal, but zero as `-`, and adds it; tells what is left, and none where the
/// text doesn't fit.
pub fn read_dash_zero<'a>(
    lo: i64,
    hi: i64,
    text: &'a [u8],
    into: &mut Bytes,
) -> Result<Option<&'a [u8]>, OutOfMemory>
    ensures read { IfOk result (λ found. IfSome found (λ left. ReadsNumber dash_text lo hi text.now left.now into.old into.new)) }
    ensures kept { BeginsWith into.new into.old }
{
    let Some((number, digits, left)) = front_number(text) else {
        let Some(left) = after_byte(b'-', text) else {
            return Ok(None);
        };
        if 0 < lo || hi < 0 {
            return Ok(None);
        }
        into.push(b'0')?;
        return Ok(Some(left));
    };
    if number == 0 || number < lo || hi < number {
        return Ok(None);
    }
    into.extend(digits)?;
    Ok(Some(left))
}

/// Reads a number from `lo` to `hi` with leading zeros up to the width, and adds it; tells what is left, and none where
/// the text doesn't fit.
pub fn read_padded<'a>(
    width: u8,
    lo: i64,
    hi: i64,
    text: &'a [u8],
    into: &mut Bytes,
) -> Result<Option<&'a [u8]>, OutOfMemory>
    ensures read { IfOk result (λ found. IfSome found (λ left. ReadsNumber (padded_text 10 width) lo hi text.now left.now into.old into.new)) }
    ensures kept { BeginsWith into.new into.old }
{
    let least = width as usize;
    let (zeros, more) = front_zeros(least.saturating_sub(1), text);
    let Some((number, digits, left)) = front_number(more) else {
        return Ok(None);
    };
    if zeros != least.saturating_sub(digits.len()) {
        return Ok(None);
    }
    if number < 0 || number < lo || hi < number {
        return Ok(None);
    }
    into.extend(digits)?;
    Ok(Some(left))
}

/// Reads a number from `lo` to `hi` of thousandths, with a point and three digits, and adds it; tells what is left, and
/// none where the text doesn't fit.
pub fn read_fixed3<'a>(
    lo: i64,
    hi: i64,
    text: &'a [u8],
    into: &mut Bytes,
) -> Result<Option<&'a [u8]>, OutOfMemory>
    ensures read { IfOk result (λ found. IfSome found (λ left. ReadsNumber thousandths_text lo hi text.now left.now into.old into.new)) }
    ensures kept { BeginsWith into.new into.old }
{
    let Some((number, left)) = front_thousandths(text) else {
        return Ok(None);
    };
    if number < lo || hi < number {
        return Ok(None);
    }
    write_number(number, into)?;
    Ok(Some(left))
}

/// The number of thousandths that the text begins with, and what follows it.
fn front_thousandths(text: &[u8]) -> Option<(i64, &[u8])>
    ensures { IfSome result (λ found. text.now ≡ thousandths_text found.0 ++ found.1.now) }
{
    let (whole, _digits, more) = front_number(text)?;
    let more = after_byte(b'.', more)?;
    let (rest, left) = three_digits(more)?;
    if whole < 0 || i64::MAX / 1000 <= whole {
        return None;
    }
    Some((1000 * whole + i64::from(rest), left))
}
