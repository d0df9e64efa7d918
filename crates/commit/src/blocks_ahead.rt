//! Blocks that workers take in ahead of the one that is committed.

use crate::block_bytes::BlockBytes;
use crate::context::Context;
use intake_workers::TakenPart;
use lookahead::{Ahead, Makeable};
use next_block::Prepared;
use rules::Refused;
use std::marker::{Brand, PhantomData};

/// What may be taken in of the block at a place, and of its parts. A run picks it.
pub(crate) trait Intake {
    ghost use Rattle.std.specs.Prelude.{ℕ, Result};
    ghost use Rattle.intake_workers.specs.declared.taken_part.TakenPart.{TakenPart};
    ghost use Rattle.rules.specs.declared.answer.Refused.{Refused};
    ghost use Rattle.next_block.specs.declared.prepared.Prepared.{Prepared};

    ghost may_be: { ℕ → Result Prepared Refused → Type 0 };

    ghost may_be_part: { ℕ → ℕ → ℕ → TakenPart → Type 0 };
}

impl Intake for Brand {
    ghost may_be = { λ place taken. Unit {0} };

    ghost may_be_part = { λ place count number part. Unit {0} };
}

/// What is made ahead of blocks is what is taken in of them.
pub(crate) struct OfBlocks<J> {
    of: PhantomData<J>,
}

impl<'b, J: Intake> Makeable<TakenPart<'b>, Result<Prepared<'b>, Refused>> for OfBlocks<J> {
    ghost may_be = { J.may_be };

    ghost may_be_part = { J.may_be_part };
}

/// The blocks of a run, of which workers take in the next ones.
pub(crate) type BlocksAhead<'s, 'e, J, R, V, G> = Ahead<
    's,
    'e,
    OfBlocks<J>,
    R,
    BlockBytes<'e>,
    TakenPart<'e>,
    Result<Prepared<'e>, Refused>,
    Context<'e, R, V, G>,
>;
