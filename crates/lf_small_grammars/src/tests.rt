//! Places that are known.
use crate::maps::check_map;
use crate::narrowing::check_narrowing;
use crate::numbers::check_numbers;
use lf_syntax::ScanFault;
use std::alloc::Global;
use std::test::Fail;

fn place(alloc: Global, text: &[u8]) -> u32 {
    if text.len() >= 4294967296 {
        return 9999;
    }
    match check_narrowing(alloc, text) {
        Ok(()) => 1000,
        Err(ScanFault::Syntax(place)) => place,
        Err(ScanFault::OutOfMemory) => 2000,
    }
}

#[test]
fn sentences(rt: HostRuntime) -> Result<(), Fail> {
    assert_eq!(rt; place(rt.alloc(), b"s1:present"), 1000);
    assert_eq!(rt;
        place(
            rt.alloc(),
            b"*:not a-z;s999:len 3..;s7:range -9223372036854775808..0"
        ),
        1000
    );
    assert_eq!(rt;
        place(rt.alloc(), b"s1:only a-zA-Z\\x2d-\\xfFx;s2:len 0..99999"),
        1000
    );
    Ok(())
}

#[test]
fn places(rt: HostRuntime) -> Result<(), Fail> {
    assert_eq!(rt; place(rt.alloc(), b""), 0);
    assert_eq!(rt; place(rt.alloc(), b"s1000:present"), 4);
    assert_eq!(rt; place(rt.alloc(), b"s9:presentx"), 10);
    assert_eq!(rt; place(rt.alloc(), b"s1:present;"), 11);
    assert_eq!(rt; place(rt.alloc(), b"s1:len 0..100000"), 15);
    assert_eq!(rt; place(rt.alloc(), b"s1:range 9223372036854775808..9"), 27);
    assert_eq!(rt; place(rt.alloc(), b"s1:range -0"), 10);
    assert_eq!(rt; place(rt.alloc(), b"s1:range 01"), 10);
    assert_eq!(rt; place(rt.alloc(), b"s1:match a"), 3);
    Ok(())
}

#[test]
fn sets(rt: HostRuntime) -> Result<(), Fail> {
    assert_eq!(rt; place(rt.alloc(), b"s1:not a-\\x4"), 11);
    assert_eq!(rt; place(rt.alloc(), b"s1:not z-a"), 9);
    assert_eq!(rt; place(rt.alloc(), b"s1:not a-b-c"), 10);
    assert_eq!(rt; place(rt.alloc(), b"s1:not \\xff-"), 12);
    assert_eq!(rt; place(rt.alloc(), b"s1:not a;-"), 9);
    Ok(())
}

fn long(alloc: Global) -> Result<Vec<u8>, std::alloc::AllocError> {
    let mut text = Vec::new(alloc);
    text.extend_from_slice(b"s1:not ")?;
    for _ in 0..1000000 {
        text.push(b'a')?;
    }
    Ok(text)
}

#[test]
fn long_text(rt: HostRuntime) -> Result<(), Fail> {
    let text = long(rt.alloc())?;
    assert_eq!(rt; place(rt.alloc(), text.as_slice()), 1000);
    Ok(())
}

fn map_place(alloc: Global, text: &[u8]) -> u32 {
    if text.len() >= 4294967296 {
        return 9999;
    }
    match check_map(alloc, text) {
        Ok(()) => 1000,
        Err(ScanFault::Syntax(place)) => place,
        Err(ScanFault::OutOfMemory) => 2000,
    }
}

const DEEP: &[u8] =
    b"s1=sec(sec(sec(sec(sec(sec(sec(sec(sec(sec(sec(sec(sec(sec(sec(sec(s1))))))))))))))))";

const TOO_DEEP: &[u8] =
    b"s1=sec(sec(sec(sec(sec(sec(sec(sec(sec(sec(sec(sec(sec(sec(sec(sec(sec(s1)))))))))))))))))";

#[test]
fn maps(rt: HostRuntime) -> Result<(), Fail> {
    assert_eq!(rt;
        map_place(
            rt.alloc(),
            b"s1=or(s2,\"a;\\x41\\\"\");s2=zoned(s1,-0930);s3=-"
        ),
        1000
    );
    assert_eq!(rt; map_place(rt.alloc(), DEEP), 1000);
    assert_eq!(rt; map_place(rt.alloc(), TOO_DEEP), 68);
    assert_eq!(rt; map_place(rt.alloc(), b"s9=s9x"), 5);
    assert_eq!(rt; map_place(rt.alloc(), b"s1=zoned(s1,-0000)"), 16);
    assert_eq!(rt; map_place(rt.alloc(), b"s1=zoned(s1,+24"), 14);
    assert_eq!(rt; map_place(rt.alloc(), b"s1=zoned(s1,+236"), 15);
    assert_eq!(rt; map_place(rt.alloc(), b"s1=part(s1,10)"), 12);
    assert_eq!(rt; map_place(rt.alloc(), b"s1=div(s1,-"), 10);
    assert_eq!(rt; map_place(rt.alloc(), b"s1=-0"), 4);
    assert_eq!(rt; map_place(rt.alloc(), b"s1=or(-,"), 8);
    Ok(())
}

#[test]
fn many_terms(rt: HostRuntime) -> Result<(), Fail> {
    let mut text = Vec::new(rt.alloc());
    text.extend_from_slice(b"s1:present")?;
    for _ in 0..60000 {
        text.extend_from_slice(b";s1:len 1..2")?;
    }
    assert_eq!(rt; place(rt.alloc(), text.as_slice()), 1000);
    Ok(())
}

#[test]
fn numbers(rt: HostRuntime) -> Result<(), Fail> {
    assert_eq!(rt; check_numbers(rt.alloc(), b"0;12;99999"), Ok(()));
    assert_eq!(rt;
        check_numbers(rt.alloc(), b"0;12;100000"),
        Err(ScanFault::Syntax(10))
    );
    assert_eq!(rt; check_numbers(rt.alloc(), b"00"), Err(ScanFault::Syntax(1)));
    assert_eq!(rt; check_numbers(rt.alloc(), b"7;"), Err(ScanFault::Syntax(2)));
    Ok(())
}
