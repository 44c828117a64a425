//! Moments, days and clocks as strings.
ghost use Rattle.std.specs.Prelude.{◌≡◌, ◌++◌, IfOk, OnOk, OnErr};
ghost use Rattle.serde_json.specs.View.{view};
ghost use Rattle.lf_core.specs.Adds.{AddsFront};
ghost use Rattle.lf_json.specs.Reading.{IsFound, IsStringOf};
ghost use Rattle.lf_json.specs.Text.{bare_string};

use lf_core::{Bytes, Domain, OutOfMemory, Value};
use serde_json::Value as Json;
use std::alloc::Global;

/// Appends the plain text of a held value between quotes.
pub(crate) fn write_time<D: Domain>(
    domain: &D,
    value: &Value,
    into: &mut Bytes,
) -> Result<(), OutOfMemory>
    requires { D.holds domain.now value.now }
    ensures ok { OnOk result (into.new ≡ into.old ++ bare_string (D.plain domain.now value.now)) }
    ensures err { OnErr result (AddsFront into.old into.new (bare_string (D.plain domain.now value.now))) }
{
    into.push(b'"')?;
    domain.write_plain(value, into)?;
    into.push(b'"')
}

/// The held value whose plain text is the string.
pub(crate) fn read_time<D: Domain>(
    alloc: Global,
    domain: &D,
    json: &Json,
) -> Result<Option<Value>, OutOfMemory>
    ensures { IfOk result (IsFound (IsStringOf (D.holds domain.now) (D.plain domain.now) (view json.now))) }
{
    let Some(text) = json.as_str() else {
        return Ok(None);
    };
    domain.read_plain(alloc, text.as_bytes())
}
