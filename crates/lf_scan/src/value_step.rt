//! How the values of a slot are read.
ghost use Rattle.std.specs.Prelude.{◌≡◌, IfOk, IfSome};
ghost use Rattle.lf_core.specs.Adds.{BeginsWith};
ghost use Rattle.lf_scan.specs.Reads.{ReadsKind};
ghost use Rattle.lf_scan.specs.Steps.{code_of, kind_of};

use crate::exact_step::ExactStep;
use crate::numbers::{read_dashed, read_decimal, read_padded_decimal, read_thousandths};
use crate::text_step::{QueryStep, TextStep};
use crate::time_step::{MomentStep, read_clock, read_day};
use lf_core::{Bytes, OutOfMemory};
use lf_domain::{DashZero, Fixed3, NumRange, Padded};
use lf_escape::Coding;
use lf_format::Kind;
use lf_stamp::Recent;
use lf_time::{W3cClock, W3cDate};
use std::alloc::Global;

/// A reader of what is written of a domain's values.
#[derive(Debug, Drop)]
pub enum ValueStep {
    Text(TextStep),
    Query(QueryStep),
    Decimal(NumRange),
    DashZero(DashZero),
    Fixed3(Fixed3),
    Padded(Padded),
    Moment(MomentStep),
    Day(W3cDate),
    Clock(W3cClock),
    Exact(ExactStep),
}

/// The reader of values that are written without a code.
fn raw_step(kind: &Kind, stop: Option<u8>) -> Result<ValueStep, OutOfMemory>
    ensures { IfOk result (λ step. (kind_of step ≡ kind.now) × (code_of step ≡ Coding.Raw)) }
{
    match kind {
        Kind::Num(domain) => Ok(ValueStep::Decimal(*domain)),
        Kind::DashZero(domain) => Ok(ValueStep::DashZero(*domain)),
        Kind::Fixed3(domain) => Ok(ValueStep::Fixed3(*domain)),
        Kind::Padded(domain) => Ok(ValueStep::Padded(*domain)),
        Kind::Clf(time) => Ok(ValueStep::Moment(MomentStep::Clf(*time))),
        Kind::Iso(time) => Ok(ValueStep::Moment(MomentStep::Iso(*time))),
        Kind::IsoMillis(time) => Ok(ValueStep::Moment(MomentStep::IsoMillis(*time))),
        Kind::Ha(time) => Ok(ValueStep::Moment(MomentStep::Ha(*time))),
        Kind::Date(date) => Ok(ValueStep::Day(*date)),
        Kind::Clock(clock) => Ok(ValueStep::Clock(*clock)),
        _ => exact_step(kind, Coding::Raw, stop),
    }
}

/// The reader of values by their domain.
fn exact_step(kind: &Kind, code: Coding, stop: Option<u8>) -> Result<ValueStep, OutOfMemory>
    ensures { IfOk result (λ step. (kind_of step ≡ kind.now) × (code_of step ≡ code)) }
{
    let kind = kind.copy()?;
    Ok(ValueStep::Exact(ExactStep { kind, code, stop }))
}

impl ValueStep {
    /// The reader of the domain's values under the code, whose texts the byte stops.
    pub(crate) fn of(kind: &Kind, code: Coding, stop: Option<u8>) -> Result<ValueStep, OutOfMemory>
        ensures { IfOk result (λ step. (kind_of step ≡ kind.now) × (code_of step ≡ code)) }
    {
        match kind {
            Kind::Text(set) => Ok(ValueStep::Text(TextStep::new(*set, code, stop))),
            Kind::Query(domain) => Ok(ValueStep::Query(QueryStep::new(*domain, code, stop))),
            _ => {
                if code == Coding::Raw {
                    return raw_step(kind, stop);
                }
                exact_step(kind, code, stop)
            }
        }
    }

    /// Reads what is written of a value, and adds its JSON; tells what is left, and none where the text doesn't fit.
    pub(crate) fn read<'a>(
        &self,
        alloc: Global,
        recent: &mut Recent,
        text: &'a [u8],
        into: &mut Bytes,
    ) -> Result<Option<&'a [u8]>, OutOfMemory>
        ensures read { IfOk result (λ found. IfSome found (λ left. ReadsKind (kind_of self.now) (code_of self.now) text.now left.now into.old into.new)) }
        ensures kept { BeginsWith into.new into.old }
    {
        match self {
            ValueStep::Text(step) => step.read(alloc, text, into),
            ValueStep::Query(step) => step.read(alloc, text, into),
            ValueStep::Decimal(domain) => read_decimal(*domain, text, into),
            ValueStep::DashZero(domain) => read_dashed(*domain, text, into),
            ValueStep::Fixed3(domain) => read_thousandths(*domain, text, into),
            ValueStep::Padded(domain) => read_padded_decimal(*domain, text, into),
            ValueStep::Moment(step) => step.read(recent, text, into),
            ValueStep::Day(domain) => read_day(*domain, text, into),
            ValueStep::Clock(domain) => read_clock(*domain, text, into),
            ValueStep::Exact(step) => step.read(alloc, text, into),
        }
    }
}
