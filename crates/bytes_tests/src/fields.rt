//! Bytes with a field that replaces some of theirs.

use std::alloc::{AllocError, Global};

#[derive(Clone, Copy)]
pub enum Field {
    /// These bytes.
    Is(&'static [u8]),
    /// A front, a unit this many times, and a back.
    Long(&'static [u8], &'static [u8], usize, &'static [u8]),
}

impl Field {
    fn parts(&self) -> (&'static [u8], &'static [u8], usize, &'static [u8]) {
        match *self {
            Field::Is(bytes) => (bytes, b"", 0, b""),
            Field::Long(front, unit, times, back) => (front, unit, times, back),
        }
    }

    /// The bytes of the field.
    pub fn bytes(&self, alloc: Global) -> Result<Vec<u8>, AllocError> {
        let (front, unit, times, back) = self.parts();
        let middle = unit.repeat(alloc, times)?;
        joined(alloc, &[front, &middle, back])
    }
}

fn joined(alloc: Global, parts: &[&[u8]]) -> Result<Vec<u8>, AllocError> {
    parts.concat(alloc)
}

/// The bytes with a field that replaces those from one place to before another.
pub fn with_field(
    alloc: Global,
    bytes: &[u8],
    from: usize,
    to: usize,
    field: &[u8],
) -> Result<Vec<u8>, AllocError> {
    let head = bytes.get(..from).unwrap_or_default();
    let tail = bytes.get(to..).unwrap_or_default();
    joined(alloc, &[head, field, tail])
}
