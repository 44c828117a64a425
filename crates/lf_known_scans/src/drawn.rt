//! Lines of records that are drawn, and those with a byte changed.

use crate::beside::{Scanned, compare_scan};
use crate::telling::reader_of;
use lf_compile::Reader;
use lf_core::{Bytes, OutOfMemory};
use lf_gen::next_record;
use lf_stamp::Recent;
use lf_words::Front;
use std::alloc::Global;
use std::test::Fail;

/// Bytes that are put in place of others.
const OTHERS: [u8; 12] = [
    b' ', b'"', b'-', b'\\', b'0', b'9', b'x', b'+', b'#', b'?', 0x80, b'\n',
];

/// The line with another byte at a place.
fn changed(alloc: Global, line: &[u8], at: usize, byte: u8) -> Result<Bytes, OutOfMemory> {
    let mut other = Bytes::new(alloc);
    let (front, back) = line.split_at(at.min(line.len()));
    other.extend(front)?;
    other.push(byte)?;
    if let Some((_, rest)) = back.split_first() {
        other.extend(rest)?;
    }
    Ok(other)
}

/// The line, and it with each of the other bytes at some place.
fn check_line(
    alloc: Global,
    reader: &Reader,
    recent: &mut Recent,
    line: &[u8],
    seed: u64,
) -> Result<Scanned, Fail> {
    let mut at = seed;
    for byte in OTHERS {
        at = at
            .wrapping_mul(6364136223846793005)
            .wrapping_add(1442695040888963407);
        let place = (at >> 33) as usize % (line.len().saturating_add(1)).max(1);
        let other = changed(alloc, line, place, byte)?;
        let came = compare_scan(alloc, reader, recent, other.as_slice())?;
        if came == Scanned::Differs {
            return Err("a changed line differs".into());
        }
    }
    Ok(compare_scan(alloc, reader, recent, line)?)
}

/// How many of the lines of so many drawn records are scanned.
fn count_scanned(
    alloc: Global,
    front: Front,
    format: &str,
    narrowing: &str,
) -> Result<usize, Fail> {
    let reader = reader_of(alloc, front, format, narrowing)?;
    let mut recent = Recent::new(alloc);
    let mut state = 7;
    let mut count: usize = 0;
    for _ in 0..40 {
        let record = next_record(alloc, reader.format(), &mut state)?;
        let mut line = Bytes::new(alloc);
        reader.format().write_line(&record, &mut line)?;
        match check_line(alloc, &reader, &mut recent, line.as_slice(), state)? {
            Scanned::Fits => count = count.saturating_add(1),
            Scanned::Falls => {}
            Scanned::Differs => return Err("a line differs".into()),
        }
    }
    Ok(count)
}

#[test]
fn lines_of_apache(rt: HostRuntime) -> Result<(), Fail> {
    let format = "%h %l %u %t \"%r\" %>s %b \"%{Referer}i\" \"%{User-agent}i\"";
    let count = count_scanned(rt.alloc(), Front::Apache, format, "")?;
    assert_eq!(rt; count, 40);
    Ok(())
}

#[test]
fn lines_of_nginx(rt: HostRuntime) -> Result<(), Fail> {
    let format =
        "$remote_addr [$time_local] \"$request\" $status $body_bytes_sent $request_time $msec \"$http_referer\"";
    let count = count_scanned(rt.alloc(), Front::Nginx, format, "")?;
    assert_eq!(rt; count, 40);
    Ok(())
}

#[test]
fn lines_of_json_by_nginx(rt: HostRuntime) -> Result<(), Fail> {
    let format =
        "{\"at\":\"$time_iso8601\",\"host\":\"$host\",\"uri\":\"$uri\",\"agent\":\"$http_user_agent\"}";
    let count = count_scanned(rt.alloc(), Front::NginxJson, format, "")?;
    assert_eq!(rt; count, 40);
    Ok(())
}

#[test]
fn lines_of_haproxy(rt: HostRuntime) -> Result<(), Fail> {
    let format =
        "%ci:%cp [%tr] %ft %b/%s %TR/%Tw/%Tc/%Tr/%Ta %ST %B %CC %CS %tsc %ac/%fc/%bc/%sc/%rc %sq/%bq %hr %hs %{+Q}r";
    let count = count_scanned(rt.alloc(), Front::Haproxy, format, "")?;
    assert_eq!(rt; count, 37);
    Ok(())
}

#[test]
fn lines_of_envoy(rt: HostRuntime) -> Result<(), Fail> {
    let format =
        "[%START_TIME%] \"%REQ(:METHOD)%\" %RESPONSE_CODE% %RESPONSE_FLAGS% %DURATION% \"%REQ(USER-AGENT)%\"";
    let count = count_scanned(rt.alloc(), Front::Envoy, format, "*:not \"")?;
    assert_eq!(rt; count, 40);
    Ok(())
}

#[test]
fn lines_of_the_draft(rt: HostRuntime) -> Result<(), Fail> {
    let format = "date time cs-method sc-status cs(User-Agent)";
    let count = count_scanned(rt.alloc(), Front::W3c, format, "")?;
    assert_eq!(rt; count, 40);
    Ok(())
}

#[test]
fn lines_of_iis(rt: HostRuntime) -> Result<(), Fail> {
    let format = "date time cs-method cs-uri-query sc-status time-taken cs(User-Agent)";
    let count = count_scanned(rt.alloc(), Front::Iis, format, "*:not +")?;
    assert_eq!(rt; count, 40);
    Ok(())
}
