//! Formats of W3C drafts and IIS.

use crate::telling::{check_many, check_rows};
use lf_words::Front;
use std::test::Fail;

#[test]
fn fields_of_the_draft(rt: HostRuntime) -> Result<(), Fail> {
    check_rows(
        &rt,
        rt.alloc(),
        Front::W3c,
        "date => [date day Raw Dash]
time => [time clock Raw Dash]
time-taken => [time-taken decimal 1.. Raw Dash]
bytes => [bytes 0..9223372036854775807 Raw Dash]
cached => [cached 0..1 Raw Dash]
c-status => [c-status 0..999 Raw Dash]
sc-status => [sc-status 0..999 Raw Dash]
s-ip => [s-ip visible 1.. Raw Dash]
r-dns => [r-dns visible 1.. Raw Dash]
cs-method => [cs-method visible 1.. Raw Dash]
sr-uri => [sr-uri word 1.. Raw Dash]
cs-uri-stem => [cs-uri-stem word 1.. Raw Dash]
rs-uri-query => [rs-uri-query word 1.. Raw Dash]
x-A9_- => [x-A9_- word 1.. Raw Dash]
x-- => [x-- word 1.. Raw Dash]
c-comment => [c-comment header 0.. Doubled Dash quoted]
cs(User-Agent) => [cs(User-Agent) header 0.. Doubled Dash quoted]
r(é) => [r(é) header 0.. Doubled Dash quoted]",
    )
}

#[test]
fn fields_of_iis(rt: HostRuntime) -> Result<(), Fail> {
    check_rows(
        &rt,
        rt.alloc(),
        Front::Iis,
        "date => [date day Raw Dash]
time => [time clock Raw Dash]
s-sitename => [s-sitename iisword 1.. PlusSpace Dash]
s-computername => [s-computername iisword 1.. PlusSpace Dash]
s-ip => [s-ip iisword 1.. PlusSpace Dash]
c-ip => [c-ip iisword 1.. PlusSpace Dash]
cs-method => [cs-method iisword 1.. PlusSpace Dash]
cs-version => [cs-version iisword 1.. PlusSpace Dash]
cs-host => [cs-host iisword 1.. PlusSpace Dash]
cs-uri-stem => [cs-uri-stem spaced 1.. PlusSpace Dash]
cs-uri-query => [cs-uri-query spaced 1.. PlusSpace Dash]
cs-username => [cs-username spaced 1.. PlusSpace Dash]
cs(Cookie) => [cs(Cookie) spaced 1.. PlusSpace Dash]
s-port => [s-port 0..65535 Raw Dash]
sc-status => [sc-status 0..999 Raw Dash]
sc-substatus => [sc-substatus 0..999 Raw Dash]
sc-win32-status => [sc-win32-status 0..4294967295 Raw Dash]
sc-bytes => [sc-bytes 0..9223372036854775807 Raw Dash]
cs-bytes => [cs-bytes 0..9223372036854775807 Raw Dash]
time-taken => [time-taken 0..9223372036854775807 Raw Dash]",
    )
}

#[test]
fn first_faults_of_the_draft(rt: HostRuntime) -> Result<(), Fail> {
    check_rows(
        &rt,
        rt.alloc(),
        Front::W3c,
        " => EmptyFormat at 0
 \t  => EmptyFormat at 0
#Fields: => EmptyFormat at 0
#Fields:  => EmptyFormat at 0
cs(A => Unclosed at 0
bytes cs(A)b => Unclosed at 6
s( => Unclosed at 0
cs() => BadName at 0
cs(a)b) => BadName at 0
 rs((a) => BadName at 1
q(a) => UnknownName at 0
x- => UnknownName at 0
x-a.b => UnknownName at 0
x-status => [x-status word 1.. Raw Dash]
cs => UnknownName at 0
cs- => UnknownName at 0
cs-ips => UnknownName at 0
Bytes => UnknownName at 0
bytes é => UnknownName at 6
cs-version => UnknownName at 0
 #Fields: => UnknownName at 1
#Fields:#Fields: => UnknownName at 8
#Fields => UnknownName at 0
#Fields:bytes #Fields: => UnknownName at 14
cs( q => Unclosed at 0
q cs( => UnknownName at 0",
    )
}

#[test]
fn first_faults_of_iis(rt: HostRuntime) -> Result<(), Fail> {
    check_rows(
        &rt,
        rt.alloc(),
        Front::Iis,
        "sc(a) => UnknownName at 0
sc(a => UnknownName at 0
c-port s-port => UnknownName at 0
s-port c-status => UnknownName at 7
bytes => UnknownName at 0
x-a => UnknownName at 0
cs(a => Unclosed at 0
s-ip\tcs( => Unclosed at 5
cs() => BadName at 0
cs(a)b) => BadName at 0
 => EmptyFormat at 0
\t => EmptyFormat at 0",
    )
}

#[test]
fn fields_are_joined_by_a_space(rt: HostRuntime) -> Result<(), Fail> {
    check_rows(
        &rt,
        rt.alloc(),
        Front::W3c,
        "bytes¶cached => LineBreak at 5
#Fields: ¶ => LineBreak at 9
¶q => LineBreak at 0
cs(a¶) => Unclosed at 0
bytes q¶ => UnknownName at 6
bytes cached => [bytes 0..9223372036854775807 Raw Dash]< >[cached 0..1 Raw Dash]
#Fields:bytes\t cached => [bytes 0..9223372036854775807 Raw Dash]< >[cached 0..1 Raw Dash]
#Fields: bytes  cached \t => [bytes 0..9223372036854775807 Raw Dash]< >[cached 0..1 Raw Dash]",
    )?;
    check_rows(
        &rt,
        rt.alloc(),
        Front::Iis,
        "s-ip ¶ => LineBreak at 5
s-ip\r¶ => UnknownName at 0
\t s-port s-port => [s-port 0..65535 Raw Dash]< >[s-port 0..65535 Raw Dash]",
    )
}

#[test]
fn many_fields(rt: HostRuntime) -> Result<(), Fail> {
    check_many(
        &rt,
        rt.alloc(),
        Front::W3c,
        "s-ip ",
        "129  => TooManySlots at 640
129 q => TooManySlots at 640
128 q s-ip => UnknownName at 640
128 \ts-ip¶ => TooManySlots at 641",
    )?;
    check_many(
        &rt,
        rt.alloc(),
        Front::Iis,
        "s-ip ",
        "129  => TooManySlots at 640
129 q => TooManySlots at 640
128 q s-ip => UnknownName at 640
128 \ts-ip¶ => TooManySlots at 641",
    )
}
