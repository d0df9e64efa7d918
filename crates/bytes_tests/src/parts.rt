//! The parts of transactions and updates at their limits.

use std::process::Abort;
use values::{KeyRef, NameRef, Slice, is_key, is_name};

/// The first `len` bytes of the filler.
pub fn letters(filler: &[u8], len: usize) -> Slice<'_> {
    Slice::new(filler.get(..len).unwrap_or_default())
}

pub fn name(rt: &impl Abort, bytes: &'static [u8]) -> NameRef<'static> {
    assert!(rt; is_name(bytes));
    NameRef::new(bytes)
}

pub fn key(rt: &impl Abort, bytes: &'static [u8]) -> KeyRef<'static> {
    assert!(rt; is_key(bytes));
    KeyRef::new(bytes)
}
