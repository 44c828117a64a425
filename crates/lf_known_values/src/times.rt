//! Times at the edges of their layouts.

use crate::checks::{holds, refuses, refuses_all, shared};
use lf_core::{Domain, Moment, Value};
use lf_layout::{DateForm, Layout, Number, Place, Zone, days_are_dates, days_are_those_of_jiff};
use lf_time::{ClfTime, HaTime, IsoMillisZ, IsoOffset, JsonTime, W3cClock, W3cDate, epoch, to_utc};
use std::test::Fail;

fn at(seconds: i64, millis: u16, offset: i16) -> Value {
    Value::Moment(Moment {
        seconds,
        millis,
        offset,
    })
}

/// First and last days of months, each with its number of days since 1970-01-01.
const DAYS: &str = "\
1900-01-01 -25567\n\
1900-01-31 -25537\n\
1900-02-01 -25536\n\
1900-02-28 -25509\n\
1900-03-01 -25508\n\
1900-03-31 -25478\n\
1900-04-01 -25477\n\
1900-04-30 -25448\n\
1900-05-01 -25447\n\
1900-05-31 -25417\n\
1900-06-01 -25416\n\
1900-06-30 -25387\n\
1900-07-01 -25386\n\
1900-07-31 -25356\n\
1900-08-01 -25355\n\
1900-08-31 -25325\n\
1900-09-01 -25324\n\
1900-09-30 -25295\n\
1900-10-01 -25294\n\
1900-10-31 -25264\n\
1900-11-01 -25263\n\
1900-11-30 -25234\n\
1900-12-01 -25233\n\
1900-12-31 -25203\n\
2000-01-01 10957\n\
2000-01-31 10987\n\
2000-02-01 10988\n\
2000-02-29 11016\n\
2000-03-01 11017\n\
2000-03-31 11047\n\
2000-04-01 11048\n\
2000-04-30 11077\n\
2000-05-01 11078\n\
2000-05-31 11108\n\
2000-06-01 11109\n\
2000-06-30 11138\n\
2000-07-01 11139\n\
2000-07-31 11169\n\
2000-08-01 11170\n\
2000-08-31 11200\n\
2000-09-01 11201\n\
2000-09-30 11230\n\
2000-10-01 11231\n\
2000-10-31 11261\n\
2000-11-01 11262\n\
2000-11-30 11291\n\
2000-12-01 11292\n\
2000-12-31 11322\n\
2023-01-01 19358\n\
2023-01-31 19388\n\
2023-02-01 19389\n\
2023-02-28 19416\n\
2023-03-01 19417\n\
2023-03-31 19447\n\
2023-04-01 19448\n\
2023-04-30 19477\n\
2023-05-01 19478\n\
2023-05-31 19508\n\
2023-06-01 19509\n\
2023-06-30 19538\n\
2023-07-01 19539\n\
2023-07-31 19569\n\
2023-08-01 19570\n\
2023-08-31 19600\n\
2023-09-01 19601\n\
2023-09-30 19630\n\
2023-10-01 19631\n\
2023-10-31 19661\n\
2023-11-01 19662\n\
2023-11-30 19691\n\
2023-12-01 19692\n\
2023-12-31 19722\n\
2024-01-01 19723\n\
2024-01-31 19753\n\
2024-02-01 19754\n\
2024-02-29 19782\n\
2024-03-01 19783\n\
2024-03-31 19813\n\
2024-04-01 19814\n\
2024-04-30 19843\n\
2024-05-01 19844\n\
2024-05-31 19874\n\
2024-06-01 19875\n\
2024-06-30 19904\n\
2024-07-01 19905\n\
2024-07-31 19935\n\
2024-08-01 19936\n\
2024-08-31 19966\n\
2024-09-01 19967\n\
2024-09-30 19996\n\
2024-10-01 19997\n\
2024-10-31 20027\n\
2024-11-01 20028\n\
2024-11-30 20057\n\
2024-12-01 20058\n\
2024-12-31 20088\n\
0001-01-01 -719162\n\
9999-12-31 2932896";

#[test]
fn first_and_last_days_of_months(rt: HostRuntime) -> Result<(), Fail> {
    let mut count: u32 = 0;
    for row in DAYS.lines() {
        let (text, number) = row.split_once(' ').ok_or("a row without a number")?;
        let day = number.parse::<i32>().ok().ok_or("no number")?;
        holds(&rt, rt.alloc(), &W3cDate, &Value::Day(day), text)?;
        count = count.saturating_add(1);
    }
    assert_eq!(rt; count, 98);
    Ok(())
}

#[test]
fn days_at_their_edges(rt: HostRuntime) -> Result<(), Fail> {
    let alloc = rt.alloc();
    for (day, text) in [
        (0, "1970-01-01"),
        (-1, "1969-12-31"),
        (11240, "2000-10-10"),
        (11016, "2000-02-29"),
        (-719_162, "0001-01-01"),
        (2_932_896, "9999-12-31"),
    ] {
        holds(&rt, alloc, &W3cDate, &Value::Day(day), text)?;
    }
    refuses_all(
        &rt,
        alloc,
        &W3cDate,
        "0000-01-01|2000-02-30|1900-02-29|2001-02-29|2000-04-31|2000-13-01|2000-00-10|2000-10-00|2000-1-10|2000-10-10 ",
    )?;
    assert!(rt; !W3cDate.check(&Value::Day(-719_163)) && !W3cDate.check(&Value::Day(2_932_897)));
    Ok(())
}

#[test]
fn clocks_at_their_edges(rt: HostRuntime) -> Result<(), Fail> {
    let alloc = rt.alloc();
    for (second, text) in [(0, "00:00:00"), (50_136, "13:55:36"), (86_399, "23:59:59")] {
        holds(&rt, alloc, &W3cClock, &Value::Clock(second), text)?;
    }
    refuses_all(
        &rt,
        alloc,
        &W3cClock,
        "24:00:00|23:60:00|23:59:60|1:00:00||13:55",
    )?;
    assert!(rt; !W3cClock.check(&Value::Clock(86_400)) && !W3cClock.check(&Value::Missing));
    Ok(())
}

#[test]
fn moments_of_each_layout(rt: HostRuntime) -> Result<(), Fail> {
    let alloc = rt.alloc();
    let clf = ClfTime { bracketed: false };
    let bracketed = ClfTime { bracketed: true };
    holds(
        &rt,
        alloc,
        &clf,
        &at(971_186_136, 0, -420),
        "10/Oct/2000:13:55:36 -0700",
    )?;
    holds(
        &rt,
        alloc,
        &bracketed,
        &at(971_186_136, 0, -420),
        "[10/Oct/2000:13:55:36 -0700]",
    )?;
    holds(
        &rt,
        alloc,
        &IsoOffset,
        &at(971_186_136, 0, -420),
        "2000-10-10T13:55:36-07:00",
    )?;
    holds(
        &rt,
        alloc,
        &IsoMillisZ,
        &at(1_460_751_420, 310, 0),
        "2016-04-15T20:17:00.310Z",
    )?;
    holds(
        &rt,
        alloc,
        &HaTime,
        &at(1_233_922_454, 655, 0),
        "06/Feb/2009:12:14:14.655",
    )?;
    holds(
        &rt,
        alloc,
        &JsonTime,
        &at(971_186_136, 0, -420),
        "2000-10-10T13:55:36.000-07:00",
    )?;
    holds(
        &rt,
        alloc,
        &JsonTime,
        &at(-62_135_596_800, 7, 0),
        "0001-01-01T00:00:00.007+00:00",
    )?;
    holds(
        &rt,
        alloc,
        &JsonTime,
        &at(253_402_300_799, 999, 1439),
        "9999-12-31T23:59:59.999+23:59",
    )?;
    assert!(rt;
        !clf.check(&at(0, 1, 0)) && !IsoMillisZ.check(&at(0, 0, 1)) && !HaTime.check(&at(0, 0, -1))
    );
    assert!(rt; !JsonTime.check(&at(253_402_300_800, 0, 0)) && !JsonTime.check(&at(0, 1000, 0)));
    assert!(rt; !JsonTime.check(&at(0, 0, 1440)) && !JsonTime.check(&at(0, 0, -1440)));
    Ok(())
}

#[test]
fn no_such_moment(rt: HostRuntime) -> Result<(), Fail> {
    let alloc = rt.alloc();
    let clf = ClfTime { bracketed: false };
    for text in [
        "30/Feb/2000:13:55:36 -0700",
        "29/Feb/2001:13:55:36 -0700",
        "31/Apr/2000:13:55:36 -0700",
        "10/oct/2000:13:55:36 -0700",
        "10/Jux/2000:13:55:36 -0700",
        "10/Oct/0000:13:55:36 -0700",
        "10/Oct/2000:13:55:36 -0000",
        "10/Oct/2000:13:55:36 +2400",
        "10/Oct/2000:13:55:36 +0060",
        "[10/Oct/2000:13:55:36 -0700]",
    ] {
        refuses(&rt, alloc, &clf, text)?;
    }
    refuses(&rt, alloc, &IsoOffset, "2000-10-10T13:55:36-00:00")?;
    refuses(&rt, alloc, &IsoOffset, "2000-10-10T13:55:36-0700")?;
    refuses(&rt, alloc, &IsoMillisZ, "2016-04-15T20:17:00.31Z")?;
    refuses(&rt, alloc, &JsonTime, "2000-10-10T13:55:36-07:00")?;
    refuses(
        &rt,
        alloc,
        &ClfTime { bracketed: true },
        "10/Oct/2000:13:55:36 -0700",
    )
}

#[test]
fn instants(rt: HostRuntime) -> Result<(), Fail> {
    let moment = Moment {
        seconds: 971_186_136,
        millis: 5,
        offset: -420,
    };
    assert_eq!(rt; epoch(moment), 971_211_336);
    let utc = Moment {
        seconds: 971_211_336,
        millis: 5,
        offset: 0,
    };
    assert_eq!(rt; to_utc(moment), Some(utc));
    let early = Moment {
        seconds: -62_135_596_800,
        millis: 0,
        offset: 1,
    };
    assert_eq!(rt; to_utc(early), None);
    let late = Moment {
        seconds: 253_402_300_799,
        millis: 0,
        offset: -1,
    };
    assert_eq!(rt; to_utc(late), None);
    Ok(())
}

#[test]
fn layouts_are_shared(_rt: HostRuntime) -> Result<(), Fail> {
    days_are_dates();
    days_are_those_of_jiff();
    shared(&Number::Hour);
    shared(&Place::Ones(Number::Month));
    shared(&Layout {
        bracketed: false,
        date: DateForm::Iso,
        between: b'T',
        millis: true,
        zone: Zone::Zulu,
    });
    Ok(())
}
