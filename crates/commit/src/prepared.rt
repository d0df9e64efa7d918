//! Blocks that are taken in, whatever the world before them.
ghost use Rattle.std.specs.Prelude.{◌≡◌, ◌<◌, IfOk};
ghost use Rattle.block.specs.Grammar.{Spells};
ghost use Rattle.next_block.specs.Tentative.{AreTentativeIn};
ghost use Rattle.lookahead.specs.Parts.{AreParts};
ghost use Rattle.next_block.specs.Prepared.{IsPrepared};
ghost use Rattle.commit.specs.Prepared.{MayBeTakenIn, MayBeTakenInPart};

use crate::block_bytes::BlockBytes;
use crate::context::Context;
use gates::Gate;
use intake_workers::{Crew, Part, TakenIn, TakenPart, join_parts, take_in, take_in_part};
use linking::DecodedBlock;
use lookahead::PartedWork;
use next_block::Prepared;
use policy_eval::Verify;
use rules::Refused;
use std::alloc::{AllocError, Global};
use std::thread::Threads;

// What was taken in of a block of these bytes, prepared.
fn prepared_of<'b>(
    alloc: Global,
    taken_in: TakenIn<'b>,
    bytes: &BlockBytes<'b>,
) -> Result<Prepared<'b>, AllocError>
    ensures { IfOk result (λ p. (p.block ≡ taken_in.entry.block) × (p.bytes ≡ bytes.now) × AreTentativeIn taken_in.entry.items.items p.tentative) }
{
    let TakenIn { block, items } = taken_in;
    next_block::prepared_of(alloc, block, bytes.kept(alloc)?, items)
}

/// Takes the block of these bytes in by all workers. An `Err` is want of memory.
pub(crate) fn prepare<'b, R: Threads + Sync, V: Verify + Sync, G: Gate + Sync>(
    context: &Context<'_, R, V, G>,
    block: DecodedBlock<'b>,
    bytes: &BlockBytes<'b>,
) -> Result<Prepared<'b>, AllocError>
    ensures { IfOk result (λ prepared. Spells bytes.now block.entry → IsPrepared context.now.channel.now (V.accepts context.now.verifier.now) bytes.now prepared) }
{
    let crew = Crew {
        rt: context.rt,
        alloc: context.alloc,
        workers: context.workers.count,
    };
    let taken_in = take_in(&crew, &context.rules(), block)?;
    prepared_of(context.alloc, taken_in, bytes)
}

// A part of about so many bytes is worth drawing: half a millisecond of work or more.
const BYTES_OF_A_PART: usize = 1 << 15;

// More parts would cost more than they spread: each decodes the block.
const PARTS_OF_EACH: usize = 4;

/// Takes in a part of the block of these bytes, or nothing where they spell none. An `Err` is want of memory.
fn take_in_part_of<'b, R, V: Verify, G: Gate>(
    context: &Context<'_, R, V, G>,
    bytes: &BlockBytes<'b>,
    part: Part,
) -> Result<TakenPart<'b>, AllocError>
    ensures { IfOk result (MayBeTakenInPart context.now.channel.now (V.accepts context.now.verifier.now) bytes.now part.count part.number) }
{
    block::one_reading();
    match bytes.decode(context.alloc) {
        Ok(block) => take_in_part(context.alloc, &context.rules(), &block, part),
        // who joins the parts says what is wrong with the bytes
        Err(Refused::Malformed(_)) => Ok(TakenPart {
            hash: None,
            items: Vec::new(context.alloc),
        }),
        // decoding has one other refusal, of memory
        Err(_) => Err(AllocError),
    }
}

/// The block of these bytes, prepared, of all its parts. An `Err` is want of memory.
fn prepare_parts<'b, R, V: Verify, G: Gate>(
    context: &Context<'_, R, V, G>,
    block: DecodedBlock<'b>,
    bytes: &BlockBytes<'b>,
    parts: Vec<TakenPart<'b>>,
) -> Result<Prepared<'b>, AllocError>
    requires spelled { Spells bytes.now block }
    requires parts { AreParts (MayBeTakenInPart context.now.channel.now (V.accepts context.now.verifier.now) bytes.now) parts.items }
    ensures { IfOk result (λ prepared. IsPrepared context.now.channel.now (V.accepts context.now.verifier.now) bytes.now prepared) }
{
    let taken_in = join_parts(context.alloc, &context.rules(), block, parts)?;
    prepared_of(context.alloc, taken_in, bytes)
}

/// The block of these bytes, of all its parts, or why any world refuses them. An `Err` is want of memory.
fn joined<'b, R, V: Verify, G: Gate>(
    context: &Context<'_, R, V, G>,
    bytes: &BlockBytes<'b>,
    parts: Vec<TakenPart<'b>>,
) -> Result<Result<Prepared<'b>, Refused>, AllocError>
    requires { AreParts (MayBeTakenInPart context.now.channel.now (V.accepts context.now.verifier.now) bytes.now) parts.items }
    ensures { IfOk result (MayBeTakenIn context.now.channel.now (V.accepts context.now.verifier.now) bytes.now) }
{
    match bytes.decode(context.alloc) {
        Ok(block) => Ok(Ok(prepare_parts(context, block, bytes, parts)?)),
        Err(Refused::Memory) => Err(AllocError),
        Err(refused) => Ok(Err(refused)),
    }
}

impl<'b, R, V: Verify, G: Gate> PartedWork<
    BlockBytes<'b>,
    TakenPart<'b>,
    Result<Prepared<'b>, Refused>,
> for Context<'_, R, V, G> {
    ghost gives = { λ context bytes taken. MayBeTakenIn context.channel.now (V.accepts context.verifier.now) bytes taken };

    ghost gives_part = { λ context bytes count number part. MayBeTakenInPart context.channel.now (V.accepts context.verifier.now) bytes count number part };

    fn parts(&self, bytes: &BlockBytes<'b>) -> usize {
        (bytes.len() / BYTES_OF_A_PART).min(self.workers.count * PARTS_OF_EACH)
    }

    fn make_part(
        &self,
        _alloc: Global,
        bytes: &BlockBytes<'b>,
        count: usize,
        number: usize,
    ) -> Result<TakenPart<'b>, AllocError>
        requires { number < count }
        ensures { IfOk result (MayBeTakenInPart self.now.channel.now (V.accepts self.now.verifier.now) bytes.now count number) }
    {
        take_in_part_of(self, bytes, Part::new(count, number))
    }

    fn join(
        &self,
        _alloc: Global,
        bytes: &BlockBytes<'b>,
        parts: Vec<TakenPart<'b>>,
    ) -> Result<Result<Prepared<'b>, Refused>, AllocError>
        requires { AreParts (MayBeTakenInPart self.now.channel.now (V.accepts self.now.verifier.now) bytes.now) parts.items }
        ensures { IfOk result (MayBeTakenIn self.now.channel.now (V.accepts self.now.verifier.now) bytes.now) }
    {
        joined(self, bytes, parts)
    }
}
