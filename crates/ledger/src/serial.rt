//! The delta of the next block, by one thread.
ghost use Rattle.std.specs.Prelude.{◌≡◌, ◌≤◌, ℕ, List, length, MatchResult};
ghost use Rattle.block.specs.Grammar.{Spells, bytes_of};
ghost use Rattle.block.specs.Limits.{max_txs};
ghost use Rattle.rules.specs.declared.answer.Refused.TheVariants.{Memory};
ghost use Rattle.rules.specs.Names.{HasNamesOf};
ghost use Rattle.rules.specs.Linked.{IsLinked, IsRefused};
ghost use Rattle.next_block.specs.NextDelta.{IsDeltaOfJob, IsNextDelta};
ghost use Rattle.next_block.specs.Prepared.{IsPrepared};
ghost use Rattle.next_block.specs.Taken.{IsNextTakenIn};
ghost use Rattle.ledger.specs.Prepared.{IsPreparedIn};
ghost use Rattle.policy_eval.specs.Accepts.{Accepts};

use channel::Configuration;
use intake::{Taken, take_in};
use key_chains::{BlockRows, Job};
use linking::{DecodedBlock, LinkedBlock};
use next_block::{
    NextBlock, Prepared, flag_duplicates, job_of, job_over, next_of_hashed, pending_delta_of,
};
use policy_eval::Verify;
use rules::Refused;
use serial_checks::flags;
use std::alloc::Global;
use transaction::TxId;
use values::Hash;
use world::{ReadyDelta, World};

/// The next block of a world, or why the bytes are refused. Its transactions are hashed where it stands at its place.
fn next_block<'b>(alloc: Global, world: &World, bytes: &'b [u8]) -> Result<LinkedBlock<'b>, Refused>
    ensures { MatchResult result (λ b. Spells bytes.now b × IsLinked world.now b) (IsRefused world.now bytes.now) }
{
    let decoded = DecodedBlock::decode(alloc, bytes)?;
    let placed = decoded.at_place(world.height(), world.header_hash())?;
    placed.linked(world.version())
}

/// The next block of a world, and what can be said of its items without the world; or why the bytes are refused.
pub(crate) fn take_in_next<'b, V: Verify>(
    alloc: Global,
    channel: &Configuration,
    world: &World,
    bytes: &'b [u8],
    verifier: &V,
) -> Result<(LinkedBlock<'b>, Vec<Taken<'b>>), Refused>
    ensures { IsNextTakenIn channel.now (V.accepts verifier.now) world.now bytes.now result }
{
    let block = next_block(alloc, world, bytes)?;
    let taken = take_in(alloc, channel, verifier, block.version(), block.txs())?;
    Ok((block, taken))
}

/// The delta of the next block, of its job and ids.
fn delta_of_job(
    alloc: Global,
    next: NextBlock<'_, '_>,
    job: &Job<'_, '_>,
    ids: &[Option<TxId>],
) -> Result<ReadyDelta, Refused>
    requires ids { length ids.now ≡ length job.now.candidates }
    requires few { length ids.now ≤ max_txs }
    ensures { MatchResult result (IsDeltaOfJob job.now ids.now next.entry.last next.entry.bytes next.entry.block.now) (λ refused. refused ≡ Memory) }
{
    let flags = flags(alloc, job)?;
    let pending = pending_delta_of(alloc, next, job, ids, flags)?;
    Ok(pending.ready(alloc)?)
}

/// The delta of a block that is the next one behind a block of this commit hash, of its job and ids.
fn delta_in_order(
    alloc: Global,
    block: &LinkedBlock<'_>,
    last: Option<Hash>,
    job: &Job<'_, '_>,
    ids: &[Option<TxId>],
) -> Result<ReadyDelta, Refused>
    requires ids { length ids.now ≡ length job.now.candidates }
    requires few { length ids.now ≤ max_txs }
    ensures { MatchResult result (IsDeltaOfJob job.now ids.now last (bytes_of block.now) block.now) (λ refused. refused ≡ Memory) }
{
    let bytes = block.kept_bytes(alloc)?;
    delta_of_job(alloc, NextBlock { block, bytes, last }, job, ids)
}

/// What the block of these bytes would change, or why it would be refused.
pub(crate) fn next_delta<V: Verify>(
    alloc: Global,
    channel: &Configuration,
    world: &World,
    bytes: &[u8],
    verifier: &V,
) -> Result<ReadyDelta, Refused>
    requires { HasNamesOf channel.now world.now }
    ensures { MatchResult result (IsNextDelta channel.now (V.accepts verifier.now) world.now bytes.now) (IsRefused world.now bytes.now) }
{
    let (block, taken) = take_in_next(alloc, channel, world, bytes, verifier)?;
    let (job, ids) = job_of(alloc, channel, world, taken)?;
    delta_in_order(alloc, &block, world.commit_hash(), &job, ids.as_slice())
}

/// What a block that was prepared would change, or why it would be refused.
pub(crate) fn prepared_delta(
    alloc: Global,
    channel: &Configuration,
    world: &World,
    prepared: Prepared<'_>,
) -> Result<ReadyDelta, Refused>
    requires made { ∥ IsPreparedIn channel.now prepared ∥₁ }
    requires names { HasNamesOf channel.now world.now }
    ensures { (accepts : Accepts) (bytes : List ℕ) → IsPrepared channel.now accepts bytes prepared.entry
        → MatchResult result (IsNextDelta channel.now accepts world.now bytes) (IsRefused world.now bytes) }
{
    let Prepared {
        block,
        bytes,
        tentative,
    } = prepared;
    let block = next_of_hashed(world, block)?;
    let (key_writers, ids) = flag_duplicates(alloc, world, tentative)?;
    let rows = BlockRows::find(alloc, world.state(), &key_writers)?;
    let job = job_over(channel, world, key_writers, rows);
    let next = NextBlock {
        block: &block,
        bytes,
        last: world.commit_hash(),
    };
    delta_of_job(alloc, next, &job, ids.as_slice())
}
