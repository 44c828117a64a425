//! The instants of moments.

ghost use Rattle.std.specs.Prelude.{◌≡◌};
ghost use Rattle.std.specs.Option.{SomeIff};
ghost use Rattle.lf_layout.specs.Calendar.{IsDay};
ghost use Rattle.lf_layout.specs.Layouts.{IsMoment, civil_day};
ghost use Rattle.lf_time.specs.Instants.{epoch_of, utc_of};

use lf_core::Moment;
use lf_layout::is_moment;

/// The whole seconds of the instant, from 1970-01-01T00:00:00 at the offset 0.
pub fn epoch(moment: Moment) -> i64
    requires { IsMoment moment }
    ensures { result ≡ epoch_of moment }
{
    moment.seconds - 60 * moment.offset as i64
}

/// The moment of the same instant at the offset 0, and none exactly where its year is not 0001 to 9999.
pub fn to_utc(moment: Moment) -> Option<Moment>
    requires { IsMoment moment }
    ensures { SomeIff result (IsDay (civil_day (epoch_of moment))) (utc_of moment) }
{
    let utc = Moment {
        seconds: epoch(moment),
        millis: moment.millis,
        offset: 0,
    };
    if is_moment(&utc) { Some(utc) } else { None }
}
