//! What a text narrows a format to, or its first fault.

use crate::telling::check_rows;
use lf_words::Front;
use std::test::Fail;

#[test]
fn narrowings_of_apache(rt: HostRuntime) -> Result<(), Fail> {
    check_rows(
        &rt,
        rt.alloc(),
        Front::Apache,
        "%h => s1:present => [visible 1.. present]
%h => s1:not a-c => [{21-60,64-7e} 1..]
%h => s1:only a-z => [{61-7a} 1..]
%h => s1:only a-zA-Z;s1:not q => [{41-5a,61-70,72-7a} 1..]
%r => s1:only \\x80-\\xff => [{80-ff} 0..]
%r => s1:not \\x80-\\xFf => [{00-7f} 0..]
%r => s1:only \\x00\\x0a\\x7F\\x80\\xc3 => [{00-00,0a-0a,7f-80,c3-c3} 0..]
%r => s1:not \\x2d\\x3b\\x5c => [{00-2c,2e-3a,3c-5b,5d-ff} 0..]
%r => s1:only \\x3b-\\x5d => [{3b-5d} 0..]
%r => s1:only --/ => Syntax at 8
%r => s1:only +-\\x2d => [{2b-2d} 0..]
%r => s1:only a;s1:only b => [{} 0..]
%r => s1:only a;s1:only b;s1:present => [{} 0.. present]
%h => s1:only a;s1:only b => [{} 1..]
%h => s1:only a;s1:only b;s1:present => Empty s1
%r => s1:len 2..5 => [any 2..5]
%r => s1:len 2.. => [any 2..]
%r => s1:len 2..5;s1:len 1..9 => [any 2..5]
%r => s1:len 2..5;s1:len 3..4 => [any 3..4]
%r => s1:len 5..2 => [any 5..2]
%r => s1:len 5..2;s1:present => Empty s1
%r => s1:len 0..99999 => [any 0..99999]
%r => s1:len 99999.. => [any 99999..]
%h => s1:len 0.. => [visible 1..]
%h => s1:len 0..0 => [visible 1..0]
%h => s1:present;s1:len 0..0 => Empty s1
%h => s1:only \\x2d;s1:len 1..1;s1:present => Empty s1
%h => s1:only \\x2d;s1:len 1..1 => [{2d-2d} 1..1]
%q => s1:only a-z => [query {61-7a}]
%q => s1:not a;s1:present => [query {00-60,62-ff} present]
%q => s1:only \\x80 => [query {80-80}]
%q => s1:len 1..2 => WrongKind s1
%q => s1:range 1..2 => WrongKind s1
%B => s1:range 5..10 => [5..10]
%B => s1:range -5..10 => [0..10]
%B => s1:range -5..-1 => Empty s1
%B => s1:range 5..10;s1:range 3..7 => [5..7]
%B => s1:range 5..10;s1:range 8..20 => [8..10]
%B => s1:range 9..8 => Empty s1
%B => s1:range -9223372036854775808..9223372036854775807 => [0..9223372036854775807]
%B => s1:range 9223372036854775807..9223372036854775807 => [9223372036854775807..9223372036854775807]
%b => s1:range 0..0 => [dash 0..0]
%b => s1:range 1..1 => [dash 1..1]
%b => s1:range -1..-1 => Empty s1
%b => s1:present => [dash 0..9223372036854775807 present]
%200b => s1:range 0..0 => [dash 0..0]
%200b => s1:range 0..0;s1:present => Empty s1
%200b => s1:present => [dash 0..9223372036854775807 present]
%>s => s1:range 100..599 => [100..599]
%>s => s1:range 600..500 => [600..500]
%>s => s1:present;s1:range 600..500 => Empty s1
%t => s1:present => [time present]
%t => s1:range 1..2 => WrongKind s1
%t => s1:not a => WrongKind s1
%t => s1:len 1..2 => WrongKind s1
%X => s1:not a => WrongKind s1
%X => s1:only a => WrongKind s1
%X => s1:len 1..2 => WrongKind s1
%X => s1:present => [words present]
%h %r %B %t => *:not a => [{21-60,62-7e} 1..] [{00-60,62-ff} 0..] [0..9223372036854775807] [time]
%h %r %B %t => *:only a-z => [{61-7a} 1..] [{61-7a} 0..] [0..9223372036854775807] [time]
%h %r %B %t => *:present => [visible 1.. present] [any 0.. present] [0..9223372036854775807 present] [time present]
%h %q %X => *:not \\x80-\\xff;*:present => [visible 1.. present] [query {00-7f} present] [words present]
%B %t => *:not a => [0..9223372036854775807] [time]
%B %t => *:only a => [0..9223372036854775807] [time]
%B %t => *:present => [0..9223372036854775807 present] [time present]
%B => *:not a;s1:not a => WrongKind s1
%r %h => *:only a;*:only b => [{} 0..] [{} 1..]
%h %r => *:present;*:only a;*:only b => Empty s1
%r %h => *:present;*:only a;*:only b => Empty s2
%B %h %r %h => *:present;*:only a;*:only b => Empty s2
%h => s2:present => NoSlot s2
%h => s999:present => NoSlot s999
%B => s1:not + => WrongKind s1
%B => s2:present => NoSlot s2
%B => s1:range -5..-1 => Empty s1
%B => s1; => Syntax at 2
%B => s1:not +;s2:present => WrongKind s1
%B => s2:present;s1:not + => NoSlot s2
%B => s1:not +;s1 => WrongKind s1
%B => s1;s1:not + => Syntax at 2
%B => s1:range -5..-1;s9:presentx => Empty s1
%B => s9:presentx => Syntax at 10
%B => s9:present;x => NoSlot s9
%h => s1:present; => Syntax at 11
%h =>  => Syntax at 0
%h => ; => Syntax at 0
%h => s1:present;;s2:present => Syntax at 11
%h => s2:not a => NoSlot s2
%B => s2:not a => NoSlot s2
%B %h => s1:not a;s2:range 1..2 => WrongKind s1
%h%u => s1:len 1..1 => [visible 1..1] [any 1..]
%r => s1:match a => Syntax at 3
%r => s1:not ;s1:present => Syntax at 7
%r => s1:only a;*:present;s1:len 1..3;*:not b => [{61-61} 1..3 present]
%B literal %h => s2:only x => [0..9223372036854775807] [{78-78} 1..]
no slots => s1:present => NoSlot s1
no slots => *:present => 
no slots => *:not a => 
%r => s1:only aAzZ09!~  => [{20-21,30-30,39-39,41-41,5a-5a,61-61,7a-7a,7e-7e} 0..]
%r => s1:only   => [{20-20} 0..]
%r => s1:not  -~ => [{00-1f,7f-ff} 0..]
%r => s1:only a-a => [{61-61} 0..]
%r => s1:only \\x61-\\x61b-b => [{61-62} 0..]
%r => s1:only a-\\x7ab => [{61-7a} 0..]
%r => s1:only \\xff => [{ff-ff} 0..]
%r => s1:only a-cd-f => [{61-66} 0..]
%r => s1:only \\x41-Z => [{41-5a} 0..]",
    )
}

#[test]
fn narrowings_of_nginx(rt: HostRuntime) -> Result<(), Fail> {
    check_rows(
        &rt,
        rt.alloc(),
        Front::Nginx,
        "$msec => s1:range 1000..2000 => [fixed 1000..2000]
$msec => s1:range -1000..2000 => [fixed 0..2000]
$msec => s1:range 3..2 => Empty s1
$msec => s1:present => [fixed 0..9223372036854775807 present]
$status => s1:range 1..5 => [padded10 3 1..5]
$status => s1:range -1..5 => [padded10 3 0..5]
$status => s1:range -5..-1 => Empty s1
$status $request => s1:range 100..100;s2:only a-z => [padded10 3 100..100] [{61-7a} 0..]
$request_time => s1:not a => WrongKind s1
$remote_addr => s1:present;s1:len 2..3 => [visible 2..3 present]",
    )
}

#[test]
fn narrowings_of_haproxy(rt: HostRuntime) -> Result<(), Fail> {
    check_rows(
        &rt,
        rt.alloc(),
        Front::Haproxy,
        "%{+Q}r => s1:len 0..0 => [any 0..0]
%{+Q}r => s1:len 0..0;s1:present => Empty s1
%ST => s1:range -1..-1 => [-1..-1]
%ST => s1:range -9..0 => [-1..0]
%{+X}cp => s1:range 16..255 => [padded16 4 16..255]
%{+X}cp => s1:range -1..255 => [padded16 4 0..255]
%ts => s1:len 3.. => Empty s1
%ts => s1:len 1.. => [visible 2..2]
%hr => *:not a => [{00-60,62-ff} 0..]",
    )
}

#[test]
fn narrowings_of_iis(rt: HostRuntime) -> Result<(), Fail> {
    check_rows(
        &rt,
        rt.alloc(),
        Front::Iis,
        "sc-status cs(User-Agent) => s2:not + => [0..999] [{20-2a,2c-7e,80-ff} 1..]
date time cs-uri-query => *:not + => [time] [time] [{20-2a,2c-7e,80-ff} 1..]
date time cs-uri-query => *:present => [time present] [time present] [spaced 1.. present]",
    )
}

#[test]
fn narrowings_of_w3c(rt: HostRuntime) -> Result<(), Fail> {
    check_rows(
        &rt,
        rt.alloc(),
        Front::W3c,
        "cs(A) => s1:only \\x2d;s1:len 1..1;s1:present => [{2d-2d} 1..1 present]
cs(A) => s1:len 0..0;s1:present => [header 0..0 present]",
    )
}

#[test]
fn narrowings_of_nginxnone(rt: HostRuntime) -> Result<(), Fail> {
    check_rows(
        &rt,
        rt.alloc(),
        Front::NginxNone,
        "$http_a => s1:len 0..0 => [header 0..0]
$http_a => s1:len 0..0;s1:present => Empty s1
$http_a => s1:len 0..1;s1:present => [header 0..1 present]",
    )
}

#[test]
fn narrowings_of_envoy(rt: HostRuntime) -> Result<(), Fail> {
    check_rows(
        &rt,
        rt.alloc(),
        Front::Envoy,
        "%REQ(A):7% => s1:len 3..9 => [header 3..7]
%REQ(A):7% => s1:len 8.. => [header 8..7]
%REQ(A):7% => s1:present;s1:len 8.. => Empty s1
%START_TIME% %PROTOCOL% => *:not \" => [time] [{21-21,23-7e} 1..]",
    )
}
