//! What is drawn from a state, and the state after it.

use crate::telling::{check_draws, format_of};
use lf_core::Value;
use lf_gen::next_record;
use lf_words::Front;
use std::test::Fail;

#[test]
fn the_first_number(rt: HostRuntime) -> Result<(), Fail> {
    let format = format_of(rt.alloc(), Front::Apache, false, "%B", "")?.ok_or("no format")?;
    let mut state = 0;
    let record = next_record(rt.alloc(), &format, &mut state)?;
    assert_eq!(rt; record.len(), 1);
    assert!(rt; matches!(record.as_slice().first(), Some(Value::Num(903614))));
    assert_eq!(rt; state, 1442695040888963407);
    Ok(())
}

#[test]
fn the_last_state(rt: HostRuntime) -> Result<(), Fail> {
    let format = format_of(rt.alloc(), Front::Apache, false, "%B", "")?.ok_or("no format")?;
    let mut state = u64::MAX;
    let record = next_record(rt.alloc(), &format, &mut state)?;
    assert!(rt; matches!(record.as_slice().first(), Some(Value::Num(104977))));
    assert_eq!(rt; state, 13525302890751722018);
    Ok(())
}

#[test]
fn draws_of_apache(rt: HostRuntime) -> Result<(), Fail> {
    check_draws(
        &rt,
        rt.alloc(),
        Front::Apache,
        "%B =>  => 330556 / 526463 / 713506 / 437346 / 91090 / 514439 => 2553420073753464661
%b => s1:range 0..3 => - / 3 / 2 / 2 / 2 / 3 => 2553420073753464661
%b => s1:range 5..9 => 6 / 8 / 6 / 6 / 5 / 9 => 2553420073753464661
%s =>  => 656 / 963 / 406 / 146 / 390 / 639 => 2553420073753464661
%s => s1:range 999..100 => - / - / - / - / - / - => 2553420073753464661
%p =>  => 10428 / 6783 / 23138 / 46882 / 29138 / 37383 => 2553420073753464661
%h =>  => .+Imb / # / d*i^(Jq / :lu: / +UR / 42 => 14320949506218149955
%h => s1:len 3..5 => .+Imb / #Wd / i^(Jq / :lu:k / URn42 / h+\\\">) => 13955868093414640561
%r => s1:len 0..3 => \\x7fb\\\" / \\x07\\xd0 /  / \\xed\\x07f / \\xe1 / D\\xfb\\xe7 => 2892187164789250849
%r => s1:len 5..2 => - / - / - / - / - / - => 2892187164789250849
%r => s1:only \\x00-\\x20 => \\x1a\\x0c\\r  / \\v\\x1e\\v\\t\\x0f\\x15\\v / \\x1f / \\x04\\x10\\x13\\x07 / \\b / \\x1b\\x1a\\x07\\x1d => 1277340803610860356
%r => s1:len 7..9;s1:only \\x2d => --------- / --------- / -------- / -------- / -------- / -------- => 1208602525139275455
%r => s1:only \\x2d => ---- / ------- /  / ---- /  / ---- => 1277340803610860356
%h => s1:only a;s1:only b => - / - / - / - / - / - => 2553420073753464661
%q => s1:not \\x00-\\x1f =>  / ?\\\"\\x92 / ? /  /  / ?\\xa6A\\xe1{\\x84\\x9b\\x87 => 2892187164789250849
%q => s1:only a;s1:only b =>  / ? /  /  / ? /  => 5940934178883179151
%t =>  => [02/Mar/2007:17:09:16 -1000] / [20/Jun/2003:03:05:06 +1700] / [10/Apr/2006:19:04:50 -0500] / [07/Nov/2024:13:02:08 -2100] / [21/Aug/2013:18:04:38 -0300] / [04/Apr/2027:08:59:51 +0200] => 10314390376128247603
%X =>  => + / - / X / + / - / - => 2553420073753464661
%B => s1:range 9223372036854775807..9223372036854775807 => 9223372036854775807 / 9223372036854775807 / 9223372036854775807 / 9223372036854775807 / 9223372036854775807 / 9223372036854775807 => 2553420073753464661
%h %>s %b =>  => .+Imb 228 231528 / d*i^(Jq 911 389799 / u: 186 811308 / Rn42[ 265 503504 / >)Zy 418 730614 / 'B 171 912576 => 12021237978292113044
no slots =>  => no slots / no slots / no slots / no slots / no slots / no slots => 7",
    )
}

#[test]
fn draws_of_nginx(rt: HostRuntime) -> Result<(), Fail> {
    check_draws(
        &rt,
        rt.alloc(),
        Front::Nginx,
        "$status =>  => 556 / 463 / 506 / 346 / 090 / 439 => 2553420073753464661
$request_time =>  => 330.556 / 526.463 / 713.506 / 437.346 / 91.090 / 514.439 => 2553420073753464661
$msec => s1:range 5..5 => 0.005 / 0.005 / 0.005 / 0.005 / 0.005 / 0.005 => 2553420073753464661
$time_local =>  => 02/Mar/2007:17:09:16 -1000 / 20/Jun/2003:03:05:06 +1700 / 10/Apr/2006:19:04:50 -0500 / 07/Nov/2024:13:02:08 -2100 / 21/Aug/2013:18:04:38 -0300 / 04/Apr/2027:08:59:51 +0200 => 10314390376128247603
$time_iso8601 =>  => 2007-03-02T17:09:16-10:00 / 2003-06-20T03:05:06+17:00 / 2006-04-10T19:04:50-05:00 / 2024-11-07T13:02:08-21:00 / 2013-08-21T18:04:38-03:00 / 2027-04-04T08:59:51+02:00 => 10314390376128247603
$pipe =>  => p / . / p / p / p / . => 2553420073753464661
$request => s1:only \\x22 => \\x22\\x22\\x22\\x22 / \\x22\\x22\\x22\\x22\\x22\\x22\\x22 / \\x22 / \\x22\\x22\\x22\\x22 / \\x22 / \\x22\\x22\\x22\\x22 => 1277340803610860356
$remote_port =>  => 10428 / 6783 / 23138 / 46882 / 29138 / 37383 => 2553420073753464661",
    )
}

#[test]
fn draws_of_nginx_json(rt: HostRuntime) -> Result<(), Fail> {
    check_draws(
        &rt,
        rt.alloc(),
        Front::NginxJson,
        "$request => s1:only a\\x22\\x01;s1:len 1..2 => a\\u0001 / aa / \\u0001 / \\u0001\\u0001 / aa / a\\\" => 16462037605738411098
$request => s1:only \\x22;s1:len 0..1 => \\\" / \\\" / \\\" /  /  / \\\" => 13090078374315816025",
    )
}

#[test]
fn draws_of_nginx_none(rt: HostRuntime) -> Result<(), Fail> {
    check_draws(
        &rt,
        rt.alloc(),
        Front::NginxNone,
        "$request => s1:only a\\x22;s1:len 1..2 => a\" / \"a / \" / aa / aa / \"a => 16462037605738411098
$remote_addr => s1:only ab => baaab / a / bbabbba / bbab / aab / bb => 14320949506218149955",
    )
}

#[test]
fn draws_of_haproxy(rt: HostRuntime) -> Result<(), Fail> {
    check_draws(
        &rt,
        rt.alloc(),
        Front::Haproxy,
        "%Tw => s1:range -1..5 => 5 / 1 / 3 / 1 / 1 / 0 => 2553420073753464661
%ST =>  => 341 / 36 / 682 / 78 / 141 / 518 => 2553420073753464661
%{+X}cp =>  => 28BC / 1A7F / 5A62 / B722 / 71D2 / 9207 => 2553420073753464661
%{+X}Ts =>  => 50B3C / 8087F / AE322 / 6AC62 / 163D2 / 7D987 => 2553420073753464661
%{+X}bp => s1:range 5..3 => - / - / - / - / - / - => 2553420073753464661
%tr =>  => 02/Mar/2007:17:09:16.463 / 20/Jun/2003:03:05:06.346 / 10/Apr/2006:19:04:50.439 / 07/Nov/2024:13:02:08.528 / 21/Aug/2013:18:04:38.373 / 04/Apr/2027:08:59:51.150 => 10314390376128247603
%{+Q}r => s1:only a-c => \"cabc\" / \"cacaaac\" / \"b\" / \"bbbb\" / \"c\" / \"acbc\" => 1277340803610860356
%{+Q}r => s1:len 0..0 => \"\" / \"\" / \"\" / \"\" / \"\" / \"\" => 2553420073753464661
%{+E}r => s1:only a\\x22] => a\\\"\\]a / a\\\"a\\\"\\\"\\\"a / \\] / \\]\\]\\]\\] / a / \\\"a\\]a => 1277340803610860356
%HQ => s1:only ?a => a??? / ???aa?a / a / aaa? / ? / ?aaa => 1277340803610860356
%tsc =>  => .+Im / }#23Wd / i^(J / p:lu / k+UR / 42[h => 11150797096849668397
%hr => s1:only a|\\x0a;s1:len 1..5 => {#7C|a#7C#7C} / {|} / {|||#7C#7C} / {#7Caaa} / {|#7C#7C|#7C} / {#7C#7C} => 14320949506218149955",
    )
}

#[test]
fn draws_of_envoy(rt: HostRuntime) -> Result<(), Fail> {
    check_draws(
        &rt,
        rt.alloc(),
        Front::Envoy,
        "%START_TIME% =>  => 2007-03-02T17:09:16.463Z / 2003-06-20T03:05:06.346Z / 2006-04-10T19:04:50.439Z / 2024-11-07T13:02:08.528Z / 2013-08-21T18:04:38.373Z / 2027-04-04T08:59:51.150Z => 10314390376128247603
%REQ(A):3% => s1:not \\x80-\\xff => ~aA / fo /  / LF% / ` / cz& => 2892187164789250849
%RESPONSE_CODE% =>  => 556 / 463 / 506 / 346 / 90 / 439 => 2553420073753464661",
    )
}

#[test]
fn draws_of_w3c(rt: HostRuntime) -> Result<(), Fail> {
    check_draws(
        &rt,
        rt.alloc(),
        Front::W3c,
        "cs(A) => s1:only a\\x22 => \"a\"\"\"\"\"\"\" / \"\"\"\"\"\"\"aa\"\"a\" / \"a\" / \"aaa\"\"\" / \"\"\"\" / \"\"\"aaa\" => 1277340803610860356",
    )
}

#[test]
fn draws_of_iis(rt: HostRuntime) -> Result<(), Fail> {
    check_draws(
        &rt,
        rt.alloc(),
        Front::Iis,
        "date =>  => 2025-05-05 / 2017-12-20 / 2008-03-25 / 2017-05-17 / 2006-02-18 / 2016-09-02 => 2553420073753464661
time =>  => 17:09:16 / 02:14:23 / 03:05:06 / 07:15:46 / 19:04:50 / 22:53:59 => 2553420073753464661
cs(User-Agent) => s1:only a + => a++aa / + / +++aa+a / ++++ / a+a / aa => 14320949506218149955
date time sc-status =>  => 2025-05-05 02:14:23 506 / 2017-05-17 19:04:50 439 / 2016-05-14 14:58:48 478 / 2008-07-20 08:59:51 150 / 2026-11-15 06:42:41 899 / 2019-02-04 21:13:31 799 => 2892187164789250849",
    )
}
