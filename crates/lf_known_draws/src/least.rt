//! Least values of slots, beside known answers.

use crate::telling::{check_least, check_least_by};
use lf_words::Front;
use std::test::Fail;

#[test]
fn least_of_apache(rt: HostRuntime) -> Result<(), Fail> {
    check_least(
        &rt,
        rt.alloc(),
        Front::Apache,
        "%B =>  => 0 => number 0
%B => s1:range 95..1200 => 95 => number 95
%B => s1:range 1000..1200 => 1000 => number 1000
%b =>  => - => number 0
%b => s1:range 7..12 => 7 => number 7
%200b =>  => - => null
%200b => s1:present => 1 => number 1
%200b => s1:range 10..20;s1:present => 10 => number 10
%s =>  => - => null
%s => s1:present => 100 => number 100
%s => s1:range 600..500 => - => null
%p => s1:range 10..9999 => 10 => number 10
%h => s1:present => ! => text !
%h => s1:len 3..5;s1:present => !!! => text !!!
%h => s1:only a;s1:only b => - => null
%r => s1:present =>  => text 
%r =>  =>  => text 
%q =>  =>  => text 
%q => s1:only a =>  => text 
%200q =>  =>  => text 
%200q => s1:present =>  => text 
%t =>  => [01/Apr/0001:00:00:00 +0000] => moment -62127820800 0 0
%t => s1:present => [01/Apr/0001:00:00:00 +0000] => moment -62127820800 0 0
%X =>  => + => text +
%200X =>  => + => text +
%200X => s1:present => + => text +
%r => s1:only \\x2d;s1:present =>  => text 
%r => s1:only \\x2d;s1:len 1..4;s1:present => -- => text --
%r => s1:only \\x2d~;s1:len 1..4;s1:present => ~ => text ~
%r => s1:only \\x00-\\x1f;s1:len 1..4;s1:present => \\b => text \u{8}
%r => s1:only \\x22a;s1:len 2..;s1:present => aa => text aa
%f => s1:present =>   => text  
%r => s1:len 99999..;s1:only \\x01;s1:len 0..3 => - => null",
    )
}

#[test]
fn least_of_nginx(rt: HostRuntime) -> Result<(), Fail> {
    check_least(
        &rt,
        rt.alloc(),
        Front::Nginx,
        "$status =>  => 000 => number 0
$status => s1:range 7..90 => 007 => number 7
$request_time =>  => 0.000 => number 0
$msec => s1:range 5..1000000 => 0.005 => number 5
$msec => s1:range 99999..1000000 => 99.999 => number 99999
$time_local =>  => 01/Apr/0001:00:00:00 +0000 => moment -62127820800 0 0
$time_iso8601 =>  => 0001-01-01T00:00:00+00:00 => moment -62135596800 0 0
$pipe =>  => . => text .
$request => s1:present;s1:only \\x22 =>  => text 
$request => s1:present =>  => text 
$server_name => s1:present;s1:len 1.. => ! => text !
$remote_port =>  => - => null",
    )
}

#[test]
fn least_of_nginx_json(rt: HostRuntime) -> Result<(), Fail> {
    check_least(
        &rt,
        rt.alloc(),
        Front::NginxJson,
        "$request =>  =>  => null
$request => s1:present =>   => text  
$request => s1:present;s1:only \\x00-\\x0a;s1:len 2..3 => \\b\\b => text \u{8}\u{8}
$remote_port =>  =>  => null
$remote_port => s1:present => 0 => number 0",
    )
}

#[test]
fn least_of_nginx_none(rt: HostRuntime) -> Result<(), Fail> {
    check_least(
        &rt,
        rt.alloc(),
        Front::NginxNone,
        "$request =>  =>  => null
$request => s1:present => \t => text \t
$remote_addr => s1:present;s1:len 2.. => !! => text !!",
    )
}

#[test]
fn least_of_haproxy(rt: HostRuntime) -> Result<(), Fail> {
    check_least(
        &rt,
        rt.alloc(),
        Front::Haproxy,
        "%Tw =>  => 0 => number 0
%Tw => s1:range -1..-1 => -1 => number -1
%ST => s1:range -1..1 => 0 => number 0
%ST => s1:range 10..300 => 10 => number 10
%{+X}cp =>  => 0000 => number 0
%{+X}cp => s1:range 300..400 => 012C => number 300
%{+X}bp =>  => - => null
%{+X}bp => s1:present => 0000 => number 0
%{+X}Ts => s1:range 65536..70000 => 10000 => number 65536
%tr =>  => 01/Apr/0001:00:00:00.000 => moment -62127820800 0 0
%{+Q}r =>  => \"\" => null
%{+Q}r => s1:present => \" \" => text  
%{+Q}r => s1:present;s1:len 2.. => \"  \" => text   
%{+E}r => s1:present =>  => text 
%{+E}r => s1:present;s1:only \\x22] =>  => text 
%HQ =>  =>  => text 
%HQ => s1:present =>  => text 
%ts =>  => !! => text !!
%tsc => s1:only + => ++++ => text ++++
%hr =>  => {} => text 
%hr => s1:len 1.. => { } => text  
%rc =>  => + => text +
%ci => s1:present => ! => text !",
    )
}

#[test]
fn least_of_envoy(rt: HostRuntime) -> Result<(), Fail> {
    check_least(
        &rt,
        rt.alloc(),
        Front::Envoy,
        "%START_TIME% =>  => 0001-01-01T00:00:00.000Z => moment -62135596800 0 0
%REQ(A):3% =>  =>  => text 
%REQ(A):3% => s1:present =>  => text 
%REQ(A)% => s1:present;s1:len 2.. => \t\t => text \t\t
%RESPONSE_CODE% => s1:present => 0 => number 0",
    )
}

#[test]
fn least_of_w3c(rt: HostRuntime) -> Result<(), Fail> {
    check_least(
        &rt,
        rt.alloc(),
        Front::W3c,
        "cs(A) =>  => - => null
cs(A) => s1:present => \"\" => text 
cs(A) => s1:present;s1:len 1.. => \"\t\" => text \t
cs(A) => s1:present;s1:len 1..;s1:only \\x22 => \"\"\"\" => text \"
date =>  => - => null
date => s1:present => 0001-01-01 => day -719162
time => s1:present => 00:00:00 => clock 0
cs(A) => s1:present;s1:only \\x2d;s1:len 1.. => \"-\" => text -",
    )
}

#[test]
fn least_of_iis(rt: HostRuntime) -> Result<(), Fail> {
    check_least(
        &rt,
        rt.alloc(),
        Front::Iis,
        "cs(User-Agent) => s1:present => ! => text !
cs(User-Agent) => s1:present;s1:only  + => + => text  
cs(User-Agent) => s1:present;s1:only + => + => text +
cs(User-Agent) => s1:present;s1:len 2.. => !! => text !!
sc-status => s1:present => 0 => number 0
cs-username => s1:present => ! => text !",
    )
}

#[test]
fn least_where_a_lone_dash_is_a_value(rt: HostRuntime) -> Result<(), Fail> {
    let of_apache = "%h =>  => ! => text !
%h => s1:present => ! => text !
%h => s1:only \\x2d => - => null
%h => s1:only \\x2d;s1:present => - => text -
%h => s1:only \\x2d;s1:len 2..2;s1:present => -- => text --
%200b =>  => - => null
%200b => s1:present => - => number 0
%200b => s1:range 7..12;s1:present => 7 => number 7
%b =>  => - => number 0
%r => s1:present =>  => text ";
    check_least_by(&rt, rt.alloc(), Front::Apache, true, of_apache)?;
    let of_w3c = "cs(A) =>  => - => null
cs(A) => s1:only \\x2d;s1:len 1..;s1:present => \"-\" => text -
date =>  => - => null";
    check_least_by(&rt, rt.alloc(), Front::W3c, true, of_w3c)
}
