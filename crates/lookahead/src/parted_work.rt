ghost use Rattle.std.specs.Prelude.{◌<◌, IfOk};
ghost use Rattle.lookahead.specs.Parts.{AreParts};

use std::alloc::{AllocError, Global};

/// What is to be made of pieces, each in parts of which several may be made at once: a piece is a `P`, a part becomes a `Y`, and
/// all parts of a piece become an `X`. Who makes them, and when, changes nothing.
pub trait PartedWork<P, Y, X> {
    ghost use Rattle.std.specs.Prelude.{ℕ};

    /// What may be made of a piece.
    ghost gives: { Self → P → X → Type 0 };

    /// What may be made of a part of a piece: where there are so many, of the one with this number, from 0.
    ghost gives_part: { Self → P → ℕ → ℕ → Y → Type 0 };

    /// In how many parts a piece is made at best; 0 counts as 1, and more than 64 as 64.
    fn parts(&self, piece: &P) -> usize;

    /// Makes one part of so many. An `Err` is want of memory alone.
    fn make_part(
        &self,
        alloc: Global,
        piece: &P,
        count: usize,
        number: usize,
    ) -> Result<Y, AllocError>
        requires { number < count }
        ensures { IfOk result (λ made. gives_part self.now piece.now count number made) };

    /// Makes a piece of all its parts, in their order. An `Err` is want of memory alone.
    fn join(&self, alloc: Global, piece: &P, parts: Vec<Y>) -> Result<X, AllocError>
        requires { AreParts (gives_part self.now piece.now) parts.items }
        ensures { IfOk result (λ made. gives self.now piece.now made) };
}
