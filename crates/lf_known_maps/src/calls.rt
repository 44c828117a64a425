//! The calls of a map: the kinds that they take and have, and what is missing and undefined.

use crate::telling::{Side, check_kinds, check_values};
use lf_words::Front;
use std::test::Fail;

#[test]
fn kinds(rt: HostRuntime) -> Result<(), Fail> {
    check_kinds(
        &rt,
        rt.alloc(),
        "_ => d c t n m dctnm n t
or(_,s1) => d . . . . d . .
or(_,s2) => . c . . . c . .
or(_,s3) => . . t . . t . t
or(_,s4) => . . . n . n n .
or(_,at(s1,s2)) => . . . . m m . .
or(_,-) => d c t n m dctnm n t
or(-,_) => d c t n m dctnm n t
utc(_) => . . . . m m . .
zoned(_,-0130) => . . . . m m . .
sec(_) => . . . . m m . .
date(_) => . . . . d d . .
clock(_) => . . . . c c . .
at(_,s2) => m . . . . m . .
at(s1,_) => . m . . . m . .
epoch(_) => . . . . n n . .
msec(_) => . . . . n n . .
part(_,1) => . . t . . t . t
line(_,s3,s3) => . . t . . t . t
line(s3,_,s3) => . . t . . t . t
line(s3,s3,_) => . . t . . t . t
div(_,7) => . . . n . n n .
mul(_,-7) => . . . n . n n .
or(div(_,2),-) => . . . n . n n .",
    )
}

#[test]
fn moments(rt: HostRuntime) -> Result<(), Fail> {
    let target = Side {
        front: Front::Nginx,
        text: "$time_iso8601",
    };
    check_values(
        &rt,
        rt.alloc(),
        &target,
        "or(zoned(s1,+0200),sec(s1)) => 9999-12-31T23:30:00+02:00
or(zoned(-,+0200),sec(s1)) => 9999-12-31T23:30:00-01:00
or(zoned(utc(s1),+0200),sec(s1)) => unmapped 1
or(sec(s1),zoned(s1,+0000)) => 9999-12-31T23:30:00-01:00
or(sec(-),zoned(s1,+0000)) => 9999-12-31T23:30:00+00:00
or(sec(utc(s1)),zoned(s1,+0000)) => unmapped 1
or(utc(zoned(s1,+0000)),sec(s1)) => 9999-12-31T23:30:00+00:00
or(utc(zoned(-,+0000)),sec(s1)) => 9999-12-31T23:30:00-01:00
or(utc(zoned(utc(s1),+0000)),sec(s1)) => unmapped 1
or(at(date(s1),clock(s1)),sec(s1)) => 9999-12-31T23:30:00+00:00
or(at(date(s1),clock(-)),sec(s1)) => 9999-12-31T23:30:00-01:00
or(at(date(s1),clock(utc(s1))),sec(s1)) => unmapped 1
or(at(date(-),clock(s1)),sec(s1)) => 9999-12-31T23:30:00-01:00
or(at(date(-),clock(-)),sec(s1)) => 9999-12-31T23:30:00-01:00
or(at(date(-),clock(utc(s1))),sec(s1)) => unmapped 1
or(at(date(utc(s1)),clock(s1)),sec(s1)) => unmapped 1
or(at(date(utc(s1)),clock(-)),sec(s1)) => unmapped 1
or(at(date(utc(s1)),clock(utc(s1))),sec(s1)) => unmapped 1",
    )
}

#[test]
fn numbers(rt: HostRuntime) -> Result<(), Fail> {
    let target = Side {
        front: Front::Apache,
        text: "%B",
    };
    check_values(
        &rt,
        rt.alloc(),
        &target,
        "or(epoch(s1),7) => 253402302600
or(epoch(-),7) => 7
or(epoch(utc(s1)),7) => unmapped 1
or(msec(s1),7) => 253402302600000
or(msec(-),7) => 7
or(msec(utc(s1)),7) => unmapped 1
or(div(s3,100),7) => 5
or(div(-,100),7) => 7
or(div(mul(s3,9223372036854775807),100),7) => unmapped 1
or(mul(s3,2),7) => 1024
or(mul(-,2),7) => 7
or(mul(mul(s3,9223372036854775807),2),7) => unmapped 1",
    )
}

#[test]
fn texts(rt: HostRuntime) -> Result<(), Fail> {
    let target = Side {
        front: Front::Apache,
        text: "%r",
    };
    check_values(
        &rt,
        rt.alloc(),
        &target,
        "part(s2,2) => /a
part(-,2) => -
part(part(s2,9),2) => unmapped 1
line(s2,s2,\"z\") => GET /a GET /a z
line(s2,-,\"z\") => -
line(s2,part(s2,9),\"z\") => unmapped 1
line(-,s2,\"z\") => -
line(-,-,\"z\") => -
line(-,part(s2,9),\"z\") => unmapped 1
line(part(s2,9),s2,\"z\") => unmapped 1
line(part(s2,9),-,\"z\") => unmapped 1
line(part(s2,9),part(s2,9),\"z\") => unmapped 1
line(\"a\",s2,s2) => a GET /a GET /a
line(\"a\",s2,-) => -
line(\"a\",s2,part(s2,9)) => unmapped 1
line(\"a\",-,s2) => -
line(\"a\",-,-) => -
line(\"a\",-,part(s2,9)) => unmapped 1
line(\"a\",part(s2,9),s2) => unmapped 1
line(\"a\",part(s2,9),-) => unmapped 1
line(\"a\",part(s2,9),part(s2,9)) => unmapped 1
line(s2,\"b\",s2) => GET /a b GET /a
line(s2,\"b\",-) => -
line(s2,\"b\",part(s2,9)) => unmapped 1
line(-,\"b\",s2) => -
line(-,\"b\",-) => -
line(-,\"b\",part(s2,9)) => unmapped 1
line(part(s2,9),\"b\",s2) => unmapped 1
line(part(s2,9),\"b\",-) => unmapped 1
line(part(s2,9),\"b\",part(s2,9)) => unmapped 1
or(s2,s2) => GET /a
or(s2,-) => GET /a
or(s2,part(s2,9)) => GET /a
or(-,s2) => GET /a
or(-,-) => -
or(-,part(s2,9)) => unmapped 1
or(part(s2,9),s2) => unmapped 1
or(part(s2,9),-) => unmapped 1
or(part(s2,9),part(s2,9)) => unmapped 1",
    )
}

#[test]
fn days(rt: HostRuntime) -> Result<(), Fail> {
    let target = Side {
        front: Front::W3c,
        text: "date",
    };
    check_values(
        &rt,
        rt.alloc(),
        &target,
        "date(s1) => 9999-12-31
date(-) => -
date(utc(s1)) => unmapped 1",
    )
}

#[test]
fn clocks(rt: HostRuntime) -> Result<(), Fail> {
    let target = Side {
        front: Front::W3c,
        text: "time",
    };
    check_values(
        &rt,
        rt.alloc(),
        &target,
        "clock(s1) => 23:30:00
clock(-) => -
clock(utc(s1)) => unmapped 1",
    )
}
