ghost use Rattle.std.specs.Prelude.{◌≡◌, ◌<◌, length, IfOk};
ghost use Rattle.pieces.specs.Pieces.{Fits};

use std::alloc::{AllocError, Global};

/// One of `count` parts of a block, by its number from 0. The lengths of parts differ by at most one transaction.
#[derive(Clone, Copy)]
pub struct Part {
    pub count: usize,
    pub number: usize,
    ghost is_one: { number < count },
}

impl Part {
    pub fn new(count: usize, number: usize) -> Part
        requires { number < count }
        ensures count { result.count ≡ count }
        ensures number { result.number ≡ number }
    {
        Part { count, number }
    }

    /// All of this many parts, in their order.
    pub(crate) fn all(alloc: Global, count: usize) -> Result<Vec<Part>, AllocError>
        ensures len { IfOk result (λ parts. length parts.items ≡ count) }
        ensures parts { IfOk result (λ parts. Fits (λ number part. (part.count ≡ count) × (part.number ≡ number)) parts.items) }
    {
        let mut parts = Vec::with_capacity(alloc, count)?;
        for number in 0..count {
            parts.push(Part::new(count, number))?;
        }
        Ok(parts)
    }
}
