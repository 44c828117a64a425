//! The words of each code, beside a table.

use crate::checks::shared;
use lf_escape::{
    ApacheHex, Code, Doubled, HaCapture, HaEscape, HaHash, NginxHex, NginxJson, PlusSpace, Raw,
};
use std::alloc::{AllocError, Global};
use std::process::Abort;
use std::test::Fail;

/// The table of a code: the words that are named, and the ranges of letters that are written as a lead and two
/// hexadecimal digits. Every other letter stands for itself.
#[derive(Clone, Copy)]
struct Table {
    named: &'static [(u8, &'static str)],
    escaped: &'static [(u8, u8)],
    lead: &'static str,
    upper: bool,
}

/// The word of the letter by the table.
fn table_word(alloc: Global, table: &Table, letter: u8) -> Result<Vec<u8>, AllocError> {
    for (named, text) in table.named {
        if *named == letter {
            return Vec::from_slice(alloc, text.as_bytes());
        }
    }
    for (first, last) in table.escaped {
        if *first <= letter && letter <= *last {
            let digits = if table.upper {
                format!(in alloc; "{letter:02X}")?
            } else {
                format!(in alloc; "{letter:02x}")?
            };
            let text = format!(in alloc; "{}{}", table.lead, digits)?;
            return Vec::from_slice(alloc, text.as_bytes());
        }
    }
    Vec::from_slice(alloc, &[letter])
}

const PLAIN: Table = Table {
    named: &[],
    escaped: &[],
    lead: "",
    upper: true,
};

/// Each letter that the code takes has the table's word, and the letters that it does not take are as told.
fn agrees<C: Code + Send + Sync>(
    rt: &impl Abort,
    alloc: Global,
    code: &C,
    refused: &[u8],
    table: &Table,
) -> Result<(), AllocError> {
    shared(code);
    for letter in 0..=255u8 {
        assert_eq!(rt;
            code.takes(letter),
            !refused.contains(&letter),
            "at {letter}"
        );
        if code.takes(letter) {
            let word = code.word_of(letter);
            let wanted = table_word(alloc, table, letter)?;
            assert!(rt; word.as_slice() == wanted.as_slice(), "at {letter}");
            shared(&word);
        }
    }
    Ok(())
}

#[test]
fn words_without_digits(rt: HostRuntime) -> Result<(), Fail> {
    let alloc = rt.alloc();
    agrees(&rt, alloc, &Raw, b"\n", &PLAIN)?;
    let plus = Table {
        named: &[(b' ', "+")],
        ..PLAIN
    };
    agrees(&rt, alloc, &PlusSpace, b"\n", &plus)?;
    let doubled = Table {
        named: &[(b'"', "\"\"")],
        ..PLAIN
    };
    agrees(&rt, alloc, &Doubled, b"\n", &doubled)?;
    let escape = Table {
        named: &[(b'"', r#"\""#), (b'\\', r"\\"), (b']', r"\]")],
        ..PLAIN
    };
    agrees(&rt, alloc, &HaEscape, b"\n", &escape)?;
    Ok(())
}

#[test]
fn words_of_apache_and_nginx(rt: HostRuntime) -> Result<(), Fail> {
    let alloc = rt.alloc();
    let apache = Table {
        named: &[
            (b'"', r#"\""#),
            (b'\\', r"\\"),
            (8, r"\b"),
            (9, r"\t"),
            (10, r"\n"),
            (11, r"\v"),
            (13, r"\r"),
        ],
        escaped: &[(0, 31), (127, 255)],
        lead: r"\x",
        upper: false,
    };
    agrees(&rt, alloc, &ApacheHex, b"", &apache)?;
    let nginx = Table {
        escaped: &[(0, 31), (b'"', b'"'), (b'\\', b'\\'), (127, 255)],
        lead: r"\x",
        ..PLAIN
    };
    agrees(&rt, alloc, &NginxHex, b"", &nginx)?;
    let json = Table {
        named: &[
            (b'"', r#"\""#),
            (b'\\', r"\\"),
            (8, r"\b"),
            (9, r"\t"),
            (10, r"\n"),
            (12, r"\f"),
            (13, r"\r"),
        ],
        escaped: &[(0, 31)],
        lead: r"\u00",
        upper: true,
    };
    agrees(&rt, alloc, &NginxJson, b"", &json)?;
    Ok(())
}

#[test]
fn words_of_haproxy(rt: HostRuntime) -> Result<(), Fail> {
    let alloc = rt.alloc();
    let hash = Table {
        escaped: &[(0, 31), (b'"', b'#'), (127, 255)],
        lead: "#",
        ..PLAIN
    };
    agrees(&rt, alloc, &HaHash, b"", &hash)?;
    let capture = Table {
        named: &[(10, "|")],
        escaped: &[(0, 31), (b'"', b'#'), (b'{', b'}'), (127, 255)],
        ..hash
    };
    agrees(&rt, alloc, &HaCapture, b"", &capture)?;
    Ok(())
}
