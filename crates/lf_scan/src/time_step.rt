//! The reading of moments, days and times of the day.
ghost use Rattle.std.specs.Prelude.{◌≡◌, IfOk, IfSome};
ghost use Rattle.lf_core.specs.Adds.{BeginsWith};
ghost use Rattle.lf_escape.specs.declared.coding.Coding.TheVariants as Coding;
ghost use Rattle.lf_format.specs.declared.kind.Kind.TheVariants as Kind;
ghost use Rattle.lf_scan.specs.Reads.{ReadsKind};
ghost use Rattle.lf_scan.specs.Times.{layout_of, moment_kind};

use lf_core::{Bytes, OutOfMemory};
use lf_layout::{DateForm, Layout, Zone};
use lf_stamp::{Date, Recent, TimeOfDay};
use lf_time::{ClfTime, HaTime, IsoMillisZ, IsoOffset, W3cClock, W3cDate};

/// A domain of moments.
#[derive(Clone, Copy, Debug, PartialEq, Eq)]
pub enum MomentStep {
    Clf(ClfTime),
    Iso(IsoOffset),
    IsoMillis(IsoMillisZ),
    Ha(HaTime),
}

impl MomentStep {
    /// The layout in which the domain writes its moments.
    fn layout(self) -> Layout
        ensures { result ≡ layout_of self }
    {
        let (bracketed, date, between, millis, zone) = match self {
            MomentStep::Clf(time) => (time.bracketed, DateForm::Named, b':', false, Zone::Compact),
            MomentStep::Iso(_) => (false, DateForm::Iso, b'T', false, Zone::Colon),
            MomentStep::IsoMillis(_) => (false, DateForm::Iso, b'T', true, Zone::Zulu),
            MomentStep::Ha(_) => (false, DateForm::Named, b':', true, Zone::Absent),
        };
        Layout {
            bracketed,
            date,
            between,
            millis,
            zone,
        }
    }

    /// Reads what is written of a moment, and adds its JSON; tells what is left, and none where the text doesn't fit.
    pub(crate) fn read<'a>(
        self,
        recent: &mut Recent,
        text: &'a [u8],
        into: &mut Bytes,
    ) -> Result<Option<&'a [u8]>, OutOfMemory>
        ensures read { IfOk result (λ found. IfSome found (λ left. ReadsKind (moment_kind self) Coding.Raw text.now left.now into.old into.new)) }
        ensures kept { BeginsWith into.new into.old }
    {
        let Some(left) = recent.read(self.layout(), text, into)? else {
            return Ok(None);
        };
        Ok(Some(left))
    }
}

/// Reads what is written of a day, and adds its JSON; tells what is left, and none where the text doesn't fit.
pub(crate) fn read_day<'a>(
    domain: W3cDate,
    text: &'a [u8],
    into: &mut Bytes,
) -> Result<Option<&'a [u8]>, OutOfMemory>
    ensures read { IfOk result (λ found. IfSome found (λ left. ReadsKind (Kind.Date domain) Coding.Raw text.now left.now into.old into.new)) }
    ensures kept { BeginsWith into.new into.old }
{
    let _domain = domain;
    let Some((date, left)) = Date::read_iso(text) else {
        return Ok(None);
    };
    date.write_json(into)?;
    Ok(Some(left))
}

/// Reads what is written of a time of the day, and adds its JSON; tells what is left, and none where the text doesn't
/// fit.
pub(crate) fn read_clock<'a>(
    domain: W3cClock,
    text: &'a [u8],
    into: &mut Bytes,
) -> Result<Option<&'a [u8]>, OutOfMemory>
    ensures read { IfOk result (λ found. IfSome found (λ left. ReadsKind (Kind.Clock domain) Coding.Raw text.now left.now into.old into.new)) }
    ensures kept { BeginsWith into.new into.old }
{
    let _domain = domain;
    let Some((time, left)) = TimeOfDay::read(text) else {
        return Ok(None);
    };
    time.write_json(into)?;
    Ok(Some(left))
}
