//! Numbers at the edges of their domains.

use crate::checks::{accepts, holds, refuses, refuses_all};
use lf_core::{Bytes, Domain, Value};
use lf_domain::{DashZero, Fixed3, NumRange, Padded, Radix};
use std::alloc::Global;
use std::process::Abort;
use std::test::Fail;

#[test]
fn num_range_at_its_edges(rt: HostRuntime) -> Result<(), Fail> {
    let alloc = rt.alloc();
    let small = NumRange { lo: -12, hi: 100 };
    for (n, text) in [(-12, "-12"), (-1, "-1"), (0, "0"), (99, "99"), (100, "100")] {
        holds(&rt, alloc, &small, &Value::Num(n), text)?;
    }
    refuses_all(&rt, alloc, &small, "|-|-13|101|1000|-0|+5|007|00|5 |A")?;
    assert!(rt; !small.check(&Value::Num(101)) && !small.check(&Value::Missing));
    let whole = NumRange {
        lo: i64::MIN,
        hi: i64::MAX,
    };
    holds(
        &rt,
        alloc,
        &whole,
        &Value::Num(i64::MIN),
        "-9223372036854775808",
    )?;
    holds(
        &rt,
        alloc,
        &whole,
        &Value::Num(i64::MAX),
        "9223372036854775807",
    )?;
    refuses(&rt, alloc, &whole, "9223372036854775808")?;
    refuses(&rt, alloc, &whole, "-9223372036854775809")?;
    refuses(&rt, alloc, &whole, "18446744073709551616")?;
    refuses(&rt, alloc, &NumRange { lo: 5, hi: 4 }, "5")
}

#[test]
fn dash_zero_at_its_edges(rt: HostRuntime) -> Result<(), Fail> {
    let alloc = rt.alloc();
    let range = DashZero { lo: 0, hi: 100 };
    for (n, text) in [(0, "-"), (1, "1"), (10, "10"), (100, "100")] {
        holds(&rt, alloc, &range, &Value::Num(n), text)?;
    }
    refuses_all(&rt, alloc, &range, "|0|-1|--|-0|01|101|1000")?;
    let above = DashZero { lo: 5, hi: 12 };
    holds(&rt, alloc, &above, &Value::Num(5), "5")?;
    refuses_all(&rt, alloc, &above, "-|4|13|05")?;
    Ok(())
}

#[test]
fn fixed3_at_its_edges(rt: HostRuntime) -> Result<(), Fail> {
    let alloc = rt.alloc();
    let range = Fixed3 { lo: 5, hi: 12_050 };
    for (n, text) in [
        (5, "0.005"),
        (999, "0.999"),
        (1_000, "1.000"),
        (12_050, "12.050"),
    ] {
        holds(&rt, alloc, &range, &Value::Num(n), text)?;
    }
    refuses_all(
        &rt,
        alloc,
        &range,
        "|0|.005|0.05|0.0050|0.004|00.005|12.051|100.000|1,000",
    )?;
    let whole = Fixed3 {
        lo: 0,
        hi: i64::MAX,
    };
    holds(&rt, alloc, &whole, &Value::Num(0), "0.000")?;
    holds(
        &rt,
        alloc,
        &whole,
        &Value::Num(i64::MAX),
        "9223372036854775.807",
    )?;
    refuses(&rt, alloc, &whole, "9223372036854775.808")
}

#[test]
fn padded_at_its_edges(rt: HostRuntime) -> Result<(), Fail> {
    let alloc = rt.alloc();
    let port = Padded {
        radix: Radix::Sixteen,
        width: 4,
        lo: 0,
        hi: 65_535,
    };
    for (n, text) in [(0, "0000"), (80, "0050"), (8_080, "1F90"), (65_535, "FFFF")] {
        holds(&rt, alloc, &port, &Value::Num(n), text)?;
    }
    refuses_all(&rt, alloc, &port, "|0|050|1f90|00050|10000|000G")?;
    let status = Padded {
        radix: Radix::Ten,
        width: 3,
        lo: 7,
        hi: 1_200,
    };
    for (n, text) in [
        (7, "007"),
        (99, "099"),
        (999, "999"),
        (1_000, "1000"),
        (1_200, "1200"),
    ] {
        holds(&rt, alloc, &status, &Value::Num(n), text)?;
    }
    refuses_all(&rt, alloc, &status, "7|006|0999|1201|10000|00A")?;
    let free = Padded {
        radix: Radix::Ten,
        width: 0,
        lo: 7,
        hi: 1_200,
    };
    holds(&rt, alloc, &free, &Value::Num(7), "7")?;
    refuses(&rt, alloc, &free, "07")
}

const LETTERS: &[u8] = b"-0123456789";

/// How many of the texts of so many letters the machine accepts.
fn accepted<D: Domain>(domain: &D, alloc: Global, size: u32, texts: u32) -> Result<i64, Fail> {
    let mut count = 0i64;
    for code in 0..texts {
        let mut text = Bytes::new(alloc);
        let mut rest = code;
        for _ in 0..size {
            text.push(LETTERS[(rest % 11) as usize])?;
            rest /= 11;
        }
        if accepts(domain, text.as_slice()) {
            count = count.saturating_add(1);
        }
    }
    Ok(count)
}

/// The machine accepts each number's text, and no more texts of up to four letters than numbers.
fn accepts_exactly(rt: &impl Abort, alloc: Global, lo: i64, hi: i64) -> Result<(), Fail> {
    let range = NumRange { lo, hi };
    for n in lo..=hi {
        let text = format!(in alloc; "{n}")?;
        assert!(rt; accepts(&range, text.as_bytes()), "{text} of {lo} to {hi}");
    }
    let mut count = 0i64;
    for (size, texts) in [(0, 1), (1, 11), (2, 121), (3, 1_331), (4, 14_641)] {
        count = count.saturating_add(accepted(&range, alloc, size, texts)?);
    }
    let wanted = if lo <= hi {
        hi.saturating_sub(lo).saturating_add(1)
    } else {
        0
    };
    assert_eq!(rt; count, wanted, "{lo} to {hi}");
    Ok(())
}

#[test]
fn machines_accept_exactly_the_texts(rt: HostRuntime) -> Result<(), Fail> {
    let alloc = rt.alloc();
    for lo in [-12, -10, -9, -1, 0, 1, 10, 99] {
        for hi in [-10, -1, 0, 9, 12, 100, 112] {
            accepts_exactly(&rt, alloc, lo, hi)?;
        }
    }
    Ok(())
}
