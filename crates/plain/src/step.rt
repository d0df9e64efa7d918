ghost use Rattle.std.specs.Prelude.{◌≡◌, ◌<◌, ◌^◌, length, map, IfOk, OnOk, OnErr};
ghost use Rattle.rules.specs.Candidate.{used_id};
ghost use Rattle.rules.specs.Commit.{job_of, uses_from, committed};
ghost use Rattle.rules.specs.Delta.{uses_in};
ghost use Rattle.rules.specs.Fold as fold;
ghost use Rattle.rules.specs.World as definition;
ghost use Rattle.rules.specs.declared.committed.CommittedBlock.{CommittedBlock};
ghost use Rattle.plain.specs.Held.{IsBefore, held_in};
ghost use Rattle.plain.specs.Seen.{next_job, items_of};
ghost use Rattle.plain.specs.Taking.{IsFolded};

use crate::fold::{Running, fold};
use crate::intake::take_in;
use crate::next_block::NextBlock;
use crate::world::World;
use channel::Configuration;
use policy_eval::Verify;
use rules::{Flag, NewUse, uses_of};
use std::alloc::{AllocError, Global};

/// What the items of the next block give, and where their ids are used.
fn taken<'a, V: Verify>(
    alloc: Global,
    channel: &Configuration,
    verifier: &V,
    world: &World,
    block: &NextBlock<'_, 'a>,
) -> Result<(Running<'a>, Vec<NewUse>), AllocError>
    requires { length block.now.txs.now < 2 ^ 32 }
    ensures folded { IfOk result (λ r. IsFolded (next_job channel.now (V.accepts verifier.now) block.now.number world.now (items_of block.now)) r.0) }
    ensures uses { IfOk result (λ r. uses_in r.1.items ≡ uses_from (next_job channel.now (V.accepts verifier.now) block.now.number world.now (items_of block.now)) 0 (map (used_id channel.now (V.accepts verifier.now)) (items_of block.now))) }
{
    let intake = take_in(alloc, channel, verifier, world, block)?;
    let number = block.number;
    let folded = fold(
        alloc,
        channel.admin(),
        world,
        number,
        intake.candidates.as_slice(),
    )?;
    let uses = uses_of(
        alloc,
        number,
        intake.ids.as_slice(),
        folded.flags.as_slice(),
    )?;
    Ok((folded, uses))
}

/// Takes the items of the next block of a channel, and answers their flags. An `Err` is want of memory alone, and changes nothing.
///
/// Whether the block is linked isn't asked. The clauses speak of every world that holds this, with the block's number as its height.
///
/// Slow, with no cleverness at all. Each look-up of a row goes through all changes that the world ever made, so that a
/// block takes time in the product of its reads and writes and these, a range in their square. Each id is compared
/// with all ids, each written key with all touched ones, and whether a list repeats nothing takes its square.
pub fn take_block<V: Verify>(
    alloc: Global,
    channel: &Configuration,
    verifier: &V,
    world: &mut World,
    block: &NextBlock<'_, '_>,
) -> Result<Vec<Flag>, AllocError>
    requires { length block.now.txs.now < 2 ^ 32 }
    ensures flags { IfOk result (λ flags. (w : definition.World) → IsBefore w block.now.number world.old → flags.items ≡ fold.flags (job_of channel.now (V.accepts verifier.now) w (items_of block.now))) }
    ensures held { OnOk result ((w : definition.World) (kept : CommittedBlock) → IsBefore w block.now.number world.old → world.new ≡ held_in (committed channel.now (V.accepts verifier.now) w (items_of block.now) kept)) }
    ensures refused { OnErr result (world.new ≡ world.old) }
{
    let (folded, uses) = taken(alloc, channel, verifier, world, block)?;
    world.add(
        alloc,
        folded.changes,
        folded.entries,
        uses,
        folded.definitions.as_slice(),
    )?;
    Ok(folded.flags)
}
