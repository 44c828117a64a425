//! The reading of numbers.
ghost use Rattle.std.specs.Prelude.{◌≡◌, IfOk, IfSome};
ghost use Rattle.lf_core.specs.Adds.{BeginsWith};
ghost use Rattle.lf_escape.specs.declared.coding.Coding.TheVariants as Coding;
ghost use Rattle.lf_format.specs.declared.kind.Kind.TheVariants as Kind;
ghost use Rattle.lf_scan.specs.Reads.{ReadsKind};

use lf_core::{Bytes, OutOfMemory};
use lf_digits::{read_dash_zero, read_fixed3, read_number, read_padded};
use lf_domain::{DashZero, Fixed3, NumRange, Padded, Radix};

/// Reads what is written of a number in decimal, and adds its JSON; tells what is left, and none where the text doesn't fit.
pub(crate) fn read_decimal<'a>(
    domain: NumRange,
    text: &'a [u8],
    into: &mut Bytes,
) -> Result<Option<&'a [u8]>, OutOfMemory>
    ensures read { IfOk result (λ found. IfSome found (λ left. ReadsKind (Kind.Num domain) Coding.Raw text.now left.now into.old into.new)) }
    ensures kept { BeginsWith into.new into.old }
{
    let Some(left) = read_number(domain.lo, domain.hi, text, into)? else {
        return Ok(None);
    };
    Ok(Some(left))
}

/// Reads what is written of a number whose zero is a dash, and adds its JSON; tells what is left, and none where the text doesn't fit.
pub(crate) fn read_dashed<'a>(
    domain: DashZero,
    text: &'a [u8],
    into: &mut Bytes,
) -> Result<Option<&'a [u8]>, OutOfMemory>
    ensures read { IfOk result (λ found. IfSome found (λ left. ReadsKind (Kind.DashZero domain) Coding.Raw text.now left.now into.old into.new)) }
    ensures kept { BeginsWith into.new into.old }
{
    let Some(left) = read_dash_zero(domain.lo, domain.hi, text, into)? else {
        return Ok(None);
    };
    Ok(Some(left))
}

/// Reads what is written of a number of thousandths, and adds its JSON; tells what is left, and none where the text doesn't fit.
pub(crate) fn read_thousandths<'a>(
    domain: Fixed3,
    text: &'a [u8],
    into: &mut Bytes,
) -> Result<Option<&'a [u8]>, OutOfMemory>
    ensures read { IfOk result (λ found. IfSome found (λ left. ReadsKind (Kind.Fixed3 domain) Coding.Raw text.now left.now into.old into.new)) }
    ensures kept { BeginsWith into.new into.old }
{
    let Some(left) = read_fixed3(domain.lo, domain.hi, text, into)? else {
        return Ok(None);
    };
    Ok(Some(left))
}

/// Reads what is written of a number with a least width in decimal, and adds its JSON; tells what is left, and none
/// where the text doesn't fit.
pub(crate) fn read_padded_decimal<'a>(
    domain: Padded,
    text: &'a [u8],
    into: &mut Bytes,
) -> Result<Option<&'a [u8]>, OutOfMemory>
    ensures read { IfOk result (λ found. IfSome found (λ left. ReadsKind (Kind.Padded domain) Coding.Raw text.now left.now into.old into.new)) }
    ensures kept { BeginsWith into.new into.old }
{
    match domain.radix {
        Radix::Sixteen => Ok(None),
        Radix::Ten => {
            let Some(left) = read_padded(domain.width, domain.lo, domain.hi, text, into)? else {
                return Ok(None);
            };
            Ok(Some(left))
        }
    }
}
