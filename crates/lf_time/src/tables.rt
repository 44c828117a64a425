//! The places of each layout.

ghost use Rattle.std.specs.Prelude.{◌≡◌};
ghost use Rattle.lf_layout.specs.Places.{IsPlaced, clock_places, iso_date_places, layout_places};
ghost use Rattle.lf_time.specs.TimeLayouts.{clf_layout, iso_offset_layout, iso_millis_layout, ha_layout, json_layout};

use lf_layout::Number::{
    Century, Day, Hour, Minute, Month, NamedDay, OffsetHour, OffsetMinute, YearOfCentury,
};
use lf_layout::Place;
use lf_layout::Place::{Byte, Digit, Forget, NameFirst, NameSecond, NameThird, Ones, Sign, Tens};

// 2000-10-10
const ISO_DATE: [Place; 10] = [
    Tens(2),
    Ones(Century),
    Tens(6),
    Ones(YearOfCentury),
    Byte(b'-', 2),
    Tens(2),
    Ones(Month),
    Byte(b'-', 4),
    Tens(4),
    Ones(Day),
];

// 13:55:36
const CLOCK: [Place; 8] = [
    Tens(1),
    Ones(Hour),
    Byte(b':', 1),
    Tens(1),
    Ones(Minute),
    Byte(b':', 1),
    Tens(1),
    Ones(Minute),
];

// [10/Oct/2000:13:55:36 -0700]
const BRACKETED: [Place; 28] = [
    Byte(b'[', 1),
    Tens(1),
    Ones(NamedDay),
    Byte(b'/', 4),
    NameFirst,
    NameSecond,
    NameThird,
    Byte(b'/', 2),
    Tens(2),
    Ones(Century),
    Tens(6),
    Ones(YearOfCentury),
    Forget(b':', 2),
    Tens(1),
    Ones(Hour),
    Byte(b':', 1),
    Tens(1),
    Ones(Minute),
    Byte(b':', 1),
    Tens(1),
    Ones(Minute),
    Byte(b' ', 1),
    Sign,
    Tens(2),
    Ones(OffsetHour),
    Tens(2),
    Ones(OffsetMinute),
    Byte(b']', 1),
];

// 10/Oct/2000:13:55:36 -0700
const PLAIN_CLF: [Place; 26] = [
    Tens(1),
    Ones(NamedDay),
    Byte(b'/', 4),
    NameFirst,
    NameSecond,
    NameThird,
    Byte(b'/', 2),
    Tens(2),
    Ones(Century),
    Tens(6),
    Ones(YearOfCentury),
    Forget(b':', 2),
    Tens(1),
    Ones(Hour),
    Byte(b':', 1),
    Tens(1),
    Ones(Minute),
    Byte(b':', 1),
    Tens(1),
    Ones(Minute),
    Byte(b' ', 1),
    Sign,
    Tens(2),
    Ones(OffsetHour),
    Tens(2),
    Ones(OffsetMinute),
];

// 2000-10-10T13:55:36-07:00
const ISO_OFFSET: [Place; 25] = [
    Tens(2),
    Ones(Century),
    Tens(6),
    Ones(YearOfCentury),
    Byte(b'-', 2),
    Tens(2),
    Ones(Month),
    Byte(b'-', 4),
    Tens(4),
    Ones(Day),
    Forget(b'T', 2),
    Tens(1),
    Ones(Hour),
    Byte(b':', 1),
    Tens(1),
    Ones(Minute),
    Byte(b':', 1),
    Tens(1),
    Ones(Minute),
    Sign,
    Tens(2),
    Ones(OffsetHour),
    Byte(b':', 2),
    Tens(2),
    Ones(OffsetMinute),
];

// 2016-04-15T20:17:00.310Z
const ISO_MILLIS: [Place; 24] = [
    Tens(2),
    Ones(Century),
    Tens(6),
    Ones(YearOfCentury),
    Byte(b'-', 2),
    Tens(2),
    Ones(Month),
    Byte(b'-', 4),
    Tens(4),
    Ones(Day),
    Forget(b'T', 2),
    Tens(1),
    Ones(Hour),
    Byte(b':', 1),
    Tens(1),
    Ones(Minute),
    Byte(b':', 1),
    Tens(1),
    Ones(Minute),
    Byte(b'.', 1),
    Digit,
    Digit,
    Digit,
    Byte(b'Z', 1),
];

// 06/Feb/2009:12:14:14.655
const HA: [Place; 24] = [
    Tens(1),
    Ones(NamedDay),
    Byte(b'/', 4),
    NameFirst,
    NameSecond,
    NameThird,
    Byte(b'/', 2),
    Tens(2),
    Ones(Century),
    Tens(6),
    Ones(YearOfCentury),
    Forget(b':', 2),
    Tens(1),
    Ones(Hour),
    Byte(b':', 1),
    Tens(1),
    Ones(Minute),
    Byte(b':', 1),
    Tens(1),
    Ones(Minute),
    Byte(b'.', 1),
    Digit,
    Digit,
    Digit,
];

// 2000-10-10T13:55:36.000-07:00
const JSON: [Place; 29] = [
    Tens(2),
    Ones(Century),
    Tens(6),
    Ones(YearOfCentury),
    Byte(b'-', 2),
    Tens(2),
    Ones(Month),
    Byte(b'-', 4),
    Tens(4),
    Ones(Day),
    Forget(b'T', 2),
    Tens(1),
    Ones(Hour),
    Byte(b':', 1),
    Tens(1),
    Ones(Minute),
    Byte(b':', 1),
    Tens(1),
    Ones(Minute),
    Byte(b'.', 1),
    Digit,
    Digit,
    Digit,
    Sign,
    Tens(2),
    Ones(OffsetHour),
    Byte(b':', 2),
    Tens(2),
    Ones(OffsetMinute),
];

/// The places of `W3cDate`.
#[tactic(auto, using(lf_layout::specs::DomainLaws::day_placed))]
pub fn iso_date() -> &'static [Place]
    ensures places { result.now ≡ iso_date_places }
    ensures placed { IsPlaced result.now }
{
    &ISO_DATE
}

/// The places of `W3cClock`.
#[tactic(auto, using(lf_layout::specs::DomainLaws::clock_placed))]
pub fn clock() -> &'static [Place]
    ensures places { result.now ≡ clock_places }
    ensures placed { IsPlaced result.now }
{
    &CLOCK
}

/// The places of `ClfTime`, in brackets or not.
#[tactic(auto, using(crate::specs::TimeLaws::clf_placed))]
pub fn clf(bracketed: bool) -> &'static [Place]
    ensures places { result.now ≡ layout_places (clf_layout bracketed) }
    ensures placed { IsPlaced result.now }
{
    if bracketed {
        return &BRACKETED;
    }
    &PLAIN_CLF
}

/// The places of `IsoOffset`.
#[tactic(auto, using(crate::specs::TimeLaws::iso_offset_placed))]
pub fn iso_offset() -> &'static [Place]
    ensures places { result.now ≡ layout_places iso_offset_layout }
    ensures placed { IsPlaced result.now }
{
    &ISO_OFFSET
}

/// The places of `IsoMillisZ`.
#[tactic(auto, using(crate::specs::TimeLaws::iso_millis_placed))]
pub fn iso_millis() -> &'static [Place]
    ensures places { result.now ≡ layout_places iso_millis_layout }
    ensures placed { IsPlaced result.now }
{
    &ISO_MILLIS
}

/// The places of `HaTime`.
#[tactic(auto, using(crate::specs::TimeLaws::ha_placed))]
pub fn ha() -> &'static [Place]
    ensures places { result.now ≡ layout_places ha_layout }
    ensures placed { IsPlaced result.now }
{
    &HA
}

/// The places of `JsonTime`.
#[tactic(auto, using(crate::specs::TimeLaws::json_placed))]
pub fn json() -> &'static [Place]
    ensures places { result.now ≡ layout_places json_layout }
    ensures placed { IsPlaced result.now }
{
    &JSON
}
