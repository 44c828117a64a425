//! Lines as servers write them: each of them is scanned.

use crate::beside::{Scanned, compare_scan};
use crate::telling::reader_of;
use lf_stamp::Recent;
use lf_words::Front;
use std::alloc::Global;
use std::process::Abort;
use std::test::Fail;

/// Each of the lines is scanned.
fn check_usual(
    rt: &impl Abort,
    alloc: Global,
    front: Front,
    format: &str,
    narrowing: &str,
    lines: &str,
) -> Result<(), Fail> {
    let reader = reader_of(alloc, front, format, narrowing)?;
    let mut recent = Recent::new(alloc);
    for line in lines.lines() {
        let came = compare_scan(alloc, &reader, &mut recent, line.as_bytes())?;
        assert!(rt; came == Scanned::Fits, "{line}");
    }
    Ok(())
}

#[test]
fn combined_lines_of_apache(rt: HostRuntime) -> Result<(), Fail> {
    check_usual(
        &rt,
        rt.alloc(),
        Front::Apache,
        "%h %l %u %t \"%r\" %>s %b \"%{Referer}i\" \"%{User-agent}i\"",
        "",
        r#"170.178.153.46 - - [10/Jan/2021:06:06:57 +0530] "GET /api/v1/items HTTP/1.1" 200 7477 "https://example.org/static/app.js" "curl/8.5.0"
140.229.165.64 - frank [10/Jan/2021:06:06:57 +0530] "GET /search?id=66619 HTTP/1.1" 304 - "-" "Mozilla/5.0 (Windows NT 10.0; Win64; x64; rv:121.0)"
140.229.165.64 - - [10/Jan/2021:06:06:58 +0530] "GET /\"a\"\\\xc3\xa4 HTTP/1.1" 200 1 "-" "a\"b"
10.0.0.1 - - [10/Jan/2021:06:06:58 -0700] "\x16\x03\x01" 400 226 "-" "-"
10.0.0.1 - - [29/Feb/2020:23:59:59 +0000] "-" 408 - "-" "-""#,
    )
}

#[test]
fn combined_lines_of_nginx(rt: HostRuntime) -> Result<(), Fail> {
    check_usual(
        &rt,
        rt.alloc(),
        Front::Nginx,
        "$remote_addr - $remote_user [$time_local] \"$request\" $status $body_bytes_sent \"$http_referer\" \"$http_user_agent\"",
        "",
        r#"71.29.170.178 - alice [01/Nov/2006:03:57:47 +0530] "GET /search HTTP/1.1" 200 905 "https://example.org/static/app.js" "curl/8.5.0"
203.0.113.9 - - [01/Nov/2006:03:57:47 +0530] "GET /a\x22b HTTP/1.1" 200 612 "-" "curl/8.5.0"
203.0.113.9 - - [01/Nov/2006:03:57:48 +0530] "\x16\x03\x01\x00" 400 157 "-" "-""#,
    )
}

#[test]
fn lines_of_haproxy(rt: HostRuntime) -> Result<(), Fail> {
    check_usual(
        &rt,
        rt.alloc(),
        Front::Haproxy,
        "%ci:%cp [%tr] %ft %b/%s %TR/%Tw/%Tc/%Tr/%Ta %ST %B %CC %CS %tsc %ac/%fc/%bc/%sc/%rc %sq/%bq %hr %hs %{+Q}r",
        "",
        r#"86.159.0.105:7490 [24/Nov/2007:10:40:57.386] http-in static/srv5 388/70/298/493/28 200 9726473 - - ---- 10/11/9/2/0 0/0 {example.org} {} "POST / HTTP/1.1"
10.0.1.2:33317 [06/Feb/2009:12:14:14.655] http-in static/srv1 10/0/-1/-1/109 503 2750 - - sC-- 1/1/1/1/+3 0/0 {1wt.eu} {} "GET /index.html?a=#22 HTTP/1.1""#,
    )
}

#[test]
fn lines_of_envoy(rt: HostRuntime) -> Result<(), Fail> {
    check_usual(
        &rt,
        rt.alloc(),
        Front::Envoy,
        "[%START_TIME%] \"%REQ(:METHOD)% %REQ(X-ENVOY-ORIGINAL-PATH?:PATH)% %PROTOCOL%\" %RESPONSE_CODE% %RESPONSE_FLAGS% %BYTES_RECEIVED% %BYTES_SENT% %DURATION% %RESP(X-ENVOY-UPSTREAM-SERVICE-TIME)% \"%REQ(X-FORWARDED-FOR)%\" \"%REQ(USER-AGENT)%\" \"%REQ(X-REQUEST-ID)%\" \"%REQ(:AUTHORITY)%\" \"%UPSTREAM_HOST%\"",
        "*:not \"",
        r#"[2024-03-19T01:21:56.357Z] "GET / HTTP/1.1" 200 - 905 3 404 2658 "120.175.193.135" "Mozilla/5.0 (X11; Linux x86_64) Chrome/120.0.0.0" "0d18f65cc902" "example.org" "37.102.202.167:14266"
[2024-03-19T01:21:56.357Z] "GET /a HTTP/2" 503 UH 0 91 0 - "-" "curl/8.5.0" "bb65bbd8fc43" "example.org" "-""#,
    )
}

#[test]
fn lines_of_iis(rt: HostRuntime) -> Result<(), Fail> {
    check_usual(
        &rt,
        rt.alloc(),
        Front::Iis,
        "date time s-ip cs-method cs-uri-stem cs-uri-query s-port cs-username c-ip cs(User-Agent) cs(Referer) sc-status sc-substatus sc-win32-status time-taken",
        "*:not +",
        "2018-01-11 11:19:05 10.0.0.2 GET / id=12933 443 alice 175.193.135.37 Mozilla/5.0+(Windows+NT+10.0)+Firefox/121.0 https://example.org/images/logo.png 200 0 0 296
2018-01-11 11:19:05 10.0.0.2 POST /a - 443 - 175.193.135.37 - - 404 0 2 0",
    )
}
