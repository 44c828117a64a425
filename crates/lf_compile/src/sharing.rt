//! Threads can share a reader.

use crate::reader::Reader;

/// Threads can share the value.
fn shared<T: Send + Sync>(_value: &T) {}

/// Threads can share a reader.
fn share_reader(reader: &Reader) {
    shared(reader);
}
