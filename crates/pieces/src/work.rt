ghost use Rattle.std.specs.Prelude.{IfOk};

use std::alloc::{AllocError, Global};

/// What is to be made of pieces: a piece is a `P`, and becomes an `X`. Who makes it, and when, changes nothing.
pub trait Work<P, X> {
    /// What may be made of a piece.
    ghost gives: { Self → P → X → Type 0 };

    /// Makes it. An `Err` is want of memory alone.
    fn make(&self, alloc: Global, piece: &P) -> Result<X, AllocError>
        ensures { IfOk result (λ made. gives self.now piece.now made) };
}
