//! What a domain says of a value and its text.

use lf_core::{Bytes, Domain, OutOfMemory, Value};
use std::alloc::Global;
use std::process::Abort;
use std::test::Fail;

/// Threads can share the value.
pub(crate) fn shared<T: Send + Sync>(_value: &T) {}

/// A text of these letters.
pub(crate) fn text_value(alloc: Global, letters: &[u8]) -> Result<Value, OutOfMemory> {
    let mut text = Bytes::new(alloc);
    text.extend(letters)?;
    Ok(Value::Text(text))
}

/// Whether the machine leads over the text to an end.
pub(crate) fn accepts<D: Domain>(domain: &D, text: &[u8]) -> bool {
    let mut point = domain.start();
    for letter in text {
        if point >= domain.points() {
            return false;
        }
        match domain.step(point, *letter) {
            Some(after) => point = after,
            None => return false,
        }
    }
    point < domain.points() && domain.ends(point)
}

/// The domain holds the value, and prints it so.
fn prints<D: Domain>(
    rt: &impl Abort,
    alloc: Global,
    domain: &D,
    value: &Value,
    text: &str,
) -> Result<(), Fail> {
    if !domain.check(value) {
        panic!(rt; "{text} is of no held value");
    }
    let mut plain = Bytes::new(alloc);
    domain.write_plain(value, &mut plain)?;
    assert!(rt; plain.as_slice() == text.as_bytes(), "{text}");
    Ok(())
}

/// The domain, which threads can share, holds the value, and this is its text.
pub(crate) fn holds<D: Domain + Send + Sync>(
    rt: &impl Abort,
    alloc: Global,
    domain: &D,
    value: &Value,
    text: &str,
) -> Result<(), Fail> {
    shared(domain);
    prints(rt, alloc, domain, value, text)?;
    match domain.read_plain(alloc, text.as_bytes())? {
        Some(read) => {
            prints(rt, alloc, domain, &read, text)?;
            let (wanted, found) = (
                format!(in alloc; "{value:?}")?,
                format!(in alloc; "{read:?}")?,
            );
            assert_eq!(rt; found.as_str(), wanted.as_str(), "{text}");
        }
        None => panic!(rt; "{text} is not read"),
    }
    assert!(rt; accepts(domain, text.as_bytes()), "{text}");
    Ok(())
}

/// The text is no held value's.
pub(crate) fn refuses<D: Domain>(
    rt: &impl Abort,
    alloc: Global,
    domain: &D,
    text: &str,
) -> Result<(), Fail> {
    let read = domain.read_plain(alloc, text.as_bytes())?;
    assert!(rt; read.is_none(), "{text} is read");
    assert!(rt; !accepts(domain, text.as_bytes()), "{text} is accepted");
    Ok(())
}

/// Each row is a text that the domain refuses.
pub(crate) fn refuses_all<D: Domain>(
    rt: &impl Abort,
    alloc: Global,
    domain: &D,
    rows: &str,
) -> Result<(), Fail> {
    for text in rows.split('|') {
        refuses(rt, alloc, domain, text)?;
    }
    Ok(())
}
