//! The reading of a value by its domain, for numbers and texts without escapes.
ghost use Rattle.std.specs.Prelude.{◌≡◌, ◌≤◌, ◌++◌, length, IfOk, IfSome, OnOk};
ghost use Rattle.lf_core.specs.Adds.{BeginsWith};
ghost use Rattle.lf_number.specs.Numbers.{number_text};
ghost use Rattle.lf_scan.specs.Reads.{ReadsKind};

use itoa::Buffer;
use lf_core::{Bytes, Domain, OutOfMemory, Value};
use lf_escape::Coding;
use lf_format::Kind;
use lf_json::write_text;
use std::alloc::Global;

/// A domain and a code, and the byte that stops the texts.
#[derive(Debug, Drop)]
pub struct ExactStep {
    pub kind: Kind,
    pub code: Coding,
    pub stop: Option<u8>,
}

/// How many bytes stand before the one that stops a text.
fn stop_at(stop: Option<u8>, text: &[u8]) -> usize
    ensures { result ≤ length text.now }
{
    for (at, byte) in text.iter().enumerate() {
        if Some(*byte) == stop {
            return at;
        }
    }
    text.len()
}

/// Appends the number's digits.
#[tactic(auto, using(lf_number::proofs::StdDecimals::number_text_std))]
fn write_number(number: i64, into: &mut Bytes) -> Result<(), OutOfMemory>
    ensures ok { OnOk result (into.new ≡ into.old ++ number_text number) }
    ensures kept { BeginsWith into.new into.old }
{
    let mut buffer = Buffer::new();
    into.extend(buffer.format(number).as_bytes())?;
    Ok(())
}

impl ExactStep {
    /// Reads what is written of a value, and adds its JSON; tells what is left, and none where the text doesn't fit.
    pub(crate) fn read<'a>(
        &self,
        alloc: Global,
        text: &'a [u8],
        into: &mut Bytes,
    ) -> Result<Option<&'a [u8]>, OutOfMemory>
        ensures read { IfOk result (λ found. IfSome found (λ left. ReadsKind self.now.kind self.now.code text.now left.now into.old into.new)) }
        ensures kept { BeginsWith into.new into.old }
    {
        if self.code != Coding::Raw {
            return Ok(None);
        }
        let (plain, left) = text.split_at(stop_at(self.stop, text));
        match self.kind.read_plain(alloc, plain)? {
            Some(Value::Num(number)) => {
                write_number(number, into)?;
                Ok(Some(left))
            }
            Some(Value::Text(letters)) => {
                write_text(letters.as_slice(), into)?;
                Ok(Some(left))
            }
            _ => Ok(None),
        }
    }
}
