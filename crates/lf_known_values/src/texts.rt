//! Texts, queries and words over all short texts.

use crate::checks::{accepts, shared, text_value};
use lf_core::{Bytes, Class, Domain, OutOfMemory, Value};
use lf_domain::{QueryText, TextSet, WordList, Words};
use lf_limits::MOST_LIST_BYTES;
use std::alloc::Global;
use std::test::Fail;

fn is_value(found: &Option<Value>, text: &[u8]) -> bool {
    match found {
        Some(Value::Text(letters)) => letters.as_slice() == text,
        _ => false,
    }
}

/// Whether each call of the domain says that the text is held, or each that it isn't.
fn agrees<D: Domain>(
    alloc: Global,
    domain: &D,
    text: &[u8],
    held: bool,
) -> Result<bool, OutOfMemory> {
    let value = text_value(alloc, text)?;
    let found = domain.read_plain(alloc, text)?;
    if domain.check(&value) {
        let mut plain = Bytes::new(alloc);
        domain.write_plain(&value, &mut plain)?;
        Ok(held && accepts(domain, text) && plain.as_slice() == text && is_value(&found, text))
    } else {
        Ok(!held && !accepts(domain, text) && found.is_none())
    }
}

/// The text with this number, of up to four letters out of three: a digit 3 in base four ends it.
fn spell(alloc: Global, letters: &[u8; 3], number: usize) -> Result<Bytes, OutOfMemory> {
    let mut text = Bytes::new(alloc);
    let mut rest = number;
    for _ in 0..4 {
        let digit = rest % 4;
        if digit == 3 {
            break;
        }
        text.push(letters[digit])?;
        rest /= 4;
    }
    Ok(text)
}

fn list_of(alloc: Global, words: &[&[u8]]) -> Result<WordList, OutOfMemory> {
    let mut list = WordList::new(alloc);
    for word in words {
        let room = MOST_LIST_BYTES - list.letter_count() as usize;
        if !list.has(word) && word.len() <= room {
            list.push(word)?;
        }
    }
    Ok(list)
}

#[test]
fn text_sets_hold_so_many_letters(rt: HostRuntime) -> Result<(), Fail> {
    let alloc = rt.alloc();
    let class = Class::of(b'a', b'b');
    let cases = [
        (0, None, 0, 9),
        (1, None, 1, 9),
        (3, None, 3, 9),
        (0, Some(0), 0, 0),
        (0, Some(1), 0, 1),
        (1, Some(1), 1, 1),
        (1, Some(3), 1, 3),
        (4, Some(99_999), 4, 9),
        (2, Some(1), 9, 0),
    ];
    for (min, max, least, most) in cases {
        let domain = TextSet { class, min, max };
        shared(&domain);
        for number in 0..256 {
            let text = spell(alloc, b"abc", number)?;
            let letters = text.as_slice();
            let held = !letters.contains(&b'c') && least <= letters.len() && letters.len() <= most;
            assert!(rt;
                agrees(alloc, &domain, letters, held)?,
                "{min} {max:?} {letters:?}"
            );
        }
    }
    Ok(())
}

#[test]
fn query_texts_begin_with_a_question_mark(rt: HostRuntime) -> Result<(), Fail> {
    let alloc = rt.alloc();
    let domain = QueryText {
        class: Class::of(b'a', b'a').with(b'?'),
    };
    shared(&domain);
    assert_eq!(rt; domain.points(), 2);
    for number in 0..256 {
        let text = spell(alloc, b"a?b", number)?;
        let letters = text.as_slice();
        let held = letters.is_empty() || (letters[0] == b'?' && !letters.contains(&b'b'));
        assert!(rt; agrees(alloc, &domain, letters, held)?, "{letters:?}");
    }
    let narrow = QueryText {
        class: Class::of(b'a', b'a'),
    };
    assert!(rt; agrees(alloc, &narrow, b"?a", true)?);
    assert!(rt; agrees(alloc, &narrow, b"a", false)?);
    assert!(rt; agrees(alloc, &narrow, b"??", false)?);
    Ok(())
}

/// Whether the domain of these words holds just these among all texts of up to four letters.
fn holds_just(alloc: Global, words: &[&[u8]], letters: &[u8; 3]) -> Result<bool, OutOfMemory> {
    let list = list_of(alloc, words)?;
    let domain = Words { list };
    shared(&domain);
    for number in 0..256 {
        let text = spell(alloc, letters, number)?;
        let held = words.iter().any(|word| *word == text.as_slice());
        if !agrees(alloc, &domain, text.as_slice(), held)? {
            return Ok(false);
        }
    }
    Ok(true)
}

#[test]
fn words_hold_the_words_of_a_list(rt: HostRuntime) -> Result<(), Fail> {
    let alloc = rt.alloc();
    let signs = [b"X".as_slice(), b"+", b"-"];
    let shared_fronts = [b"ab".as_slice(), b"abc", b"b"];
    let late_fronts = [b"abca".as_slice(), b"a", b"abba", b"abb"];
    let with_empty = [b"".as_slice(), b"ca", b"cab"];
    assert!(rt; holds_just(alloc, &signs, b"X+-")?);
    assert!(rt; holds_just(alloc, &shared_fronts, b"abc")?);
    assert!(rt; holds_just(alloc, &late_fronts, b"abc")?);
    assert!(rt; holds_just(alloc, &with_empty, b"abc")?);
    assert!(rt; holds_just(alloc, &[], b"abc")?);
    Ok(())
}

#[test]
fn word_lists_are_copied(rt: HostRuntime) -> Result<(), Fail> {
    let alloc = rt.alloc();
    let list = list_of(alloc, &[b"X".as_slice(), b"", b"-+"])?;
    shared(&list);
    let copy = Words { list }.copy()?.list.copy()?;
    assert_eq!(rt; copy.len(), 3);
    assert_eq!(rt; copy.get(0), b"X".as_slice());
    assert_eq!(rt; copy.get(1), b"".as_slice());
    assert_eq!(rt; copy.get(2), b"-+".as_slice());
    assert_eq!(rt; copy.letter_count(), 3);
    assert!(rt; copy.has(b"-+") && !copy.has(b"-"));
    Ok(())
}
