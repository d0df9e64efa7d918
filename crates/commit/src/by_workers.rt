//! The delta of the next block, by workers.
ghost use Rattle.std.specs.Prelude.{◌≡◌, ◌≤◌, length, MatchResult, IfOk};
ghost use Rattle.key_chains.specs.Job.{keys_in, reads_in};
ghost use Rattle.state_db.specs.LookedUp.{AreRows};
ghost use Rattle.block.specs.Limits.{max_txs};
ghost use Rattle.rules.specs.declared.answer.Refused.TheVariants.{Memory};
ghost use Rattle.rules.specs.Fold as fold;
ghost use Rattle.rules.specs.Names.{HasNamesOf};
ghost use Rattle.next_block.specs.NextDelta.{IsDeltaOfJob};
ghost use Rattle.next_block.specs.Prepared.{IsPrepared};
ghost use Rattle.commit.specs.Prepared.{IsNextDeltaOr, IsTakenIn};

use crate::block_bytes::BlockBytes;
use crate::context::Context;
use crate::prepared::prepare;
use check_workers::check_all;
use gates::{Gate, Phase};
use key_chains::{BlockRows, Job, KeyWriters, read_rows};
use next_block::{
    NextBlock, PendingDelta, Prepared, flag_duplicates, job_over, next_of_hashed, pending_delta_of,
};
use policy_eval::Verify;
use row_workers::rows_by;
use rules::{Flag, Refused};
use serial_checks::flags;
use state_db::{FoundRows, StateDb};
use std::alloc::AllocError;
use std::sync::Wait;
use std::thread::Threads;
use transaction::TxId;
use world::World;

/// Takes the next block of a world in by workers, unless its place tells already that it is another one.
pub(crate) fn take_in_next<'b, R: Threads + Sync, V: Verify + Sync, G: Gate + Sync>(
    context: &Context<'_, R, V, G>,
    world: &World,
    bytes: &BlockBytes<'b>,
) -> Result<Prepared<'b>, Refused>
    ensures { IsTakenIn context.now.channel.now (V.accepts context.now.verifier.now) world.now bytes.now result }
{
    let decoded = bytes.decode(context.alloc)?;
    let placed = decoded.at_place(world.height(), world.header_hash())?;
    Ok(prepare(context, placed.into_decoded(), bytes)?)
}

/// The rows of the keys that a block writes. Several threads look them up where that is worth it.
fn written_rows<'s, R: Threads + Sync, V, G>(
    context: &Context<'_, R, V, G>,
    state: &'s StateDb,
    key_writers: &KeyWriters<'_>,
) -> Result<FoundRows<'s>, AllocError>
    ensures { IfOk result (λ found. AreRows state.entry.now.state (keys_in key_writers.now) found.rows.items) }
{
    let keys = key_writers.keys();
    let threads = context.workers.looking_up(keys.len(), state.pages());
    rows_by(context.rt, context.alloc, threads, state, keys)
}

/// The rows of those that it reads. One thread takes those that it writes too from their rows; several look all up.
fn read_rows_by<'s, R: Threads + Sync, V, G>(
    context: &Context<'_, R, V, G>,
    state: &'s StateDb,
    key_writers: &KeyWriters<'_>,
    written: &FoundRows<'s>,
) -> Result<FoundRows<'s>, AllocError>
    requires { AreRows state.now.state (keys_in key_writers.now) written.now.rows.items }
    ensures { IfOk result (λ found. AreRows state.entry.now.state (reads_in key_writers.now) found.rows.items) }
{
    let keys = key_writers.read_keys();
    let threads = context.workers.looking_up(keys.len(), state.pages());
    if threads < 2 {
        return read_rows(context.alloc, state, key_writers, written);
    }
    rows_by(context.rt, context.alloc, threads, state, keys)
}

/// The rows before a block of the keys that it writes and reads.
fn rows_before<'s, R: Threads + Sync, V, G>(
    context: &Context<'_, R, V, G>,
    state: &'s StateDb,
    key_writers: &KeyWriters<'_>,
) -> Result<BlockRows<'s>, AllocError>
    ensures written { IfOk result (λ rows. AreRows state.entry.now.state (keys_in key_writers.now) rows.written.rows.items) }
    ensures read { IfOk result (λ rows. AreRows state.entry.now.state (reads_in key_writers.now) rows.read.rows.items) }
{
    let written = written_rows(context, state, key_writers)?;
    let read = read_rows_by(context, state, key_writers, &written)?;
    Ok(BlockRows { written, read })
}

/// The flags of a job's candidates; and how many verdicts no worker had found. One worker checks them in order, without
/// tasks, and passes the gate once.
fn flags_of<R: Threads + Wait + Sync, V, G: Gate + Sync>(
    context: &Context<'_, R, V, G>,
    job: &Job<'_, '_>,
) -> Result<(Vec<Flag>, u32), AllocError>
    ensures { IfOk result (λ r. r.0.items ≡ fold.flags job.now) }
{
    if context.workers.count == 1 {
        context.gate.at(Phase::Endorse, 0);
        return Ok((flags(context.alloc, job)?, 0));
    }
    let checked = check_all(
        context.rt,
        context.alloc,
        job,
        context.workers.count,
        context.gate,
    )?;
    Ok((checked.flags, checked.gathered))
}

/// The delta of the next block, but for its commit hash, of its job and ids; and how many verdicts no worker had found.
fn checked_delta<R: Threads + Wait + Sync, V, G: Gate + Sync>(
    context: &Context<'_, R, V, G>,
    next: NextBlock<'_, '_>,
    job: &Job<'_, '_>,
    ids: &[Option<TxId>],
) -> Result<(PendingDelta, u32), Refused>
    requires ids { length ids.now ≡ length job.now.candidates }
    requires few { length ids.now ≤ max_txs }
    ensures { MatchResult result (λ r. IsDeltaOfJob job.now ids.now next.entry.last next.entry.bytes next.entry.block.now r.0) (λ refused. refused ≡ Memory) }
{
    let (flags, gathered) = flags_of(context, job)?;
    let pending = pending_delta_of(context.alloc, next, job, ids, flags)?;
    Ok((pending, gathered))
}

/// What the block that was taken in would change, but for its commit hash, or why it would be refused; and how many
/// verdicts no worker had found.
///
/// Marks used ids in order. All workers look up rows, where that is worth a thread, and do both checks. What the job had of
/// the block is left in `spent`, since dropping it takes a while.
pub(crate) fn next_delta<'b, R: Threads + Wait + Sync, V: Verify, G: Gate + Sync>(
    context: &Context<'_, R, V, G>,
    world: &World,
    bytes: &BlockBytes<'_>,
    prepared: Prepared<'b>,
    spent: &mut Option<KeyWriters<'b>>,
) -> Result<(PendingDelta, u32), Refused>
    requires prepared { IsPrepared context.now.channel.now (V.accepts context.now.verifier.now) bytes.now prepared }
    requires names { HasNamesOf context.now.channel.now world.now }
    ensures { IsNextDeltaOr context.now.channel.now (V.accepts context.now.verifier.now) world.now bytes.now result }
{
    // what was taken in comes of these, which stand here for the clauses
    let _bytes = bytes;
    let Prepared {
        block,
        bytes: kept,
        tentative,
    } = prepared;
    let block = next_of_hashed(world, block)?;
    let (key_writers, ids) = flag_duplicates(context.alloc, world, tentative)?;
    let rows = rows_before(context, world.state(), &key_writers)?;
    let job = job_over(context.channel, world, key_writers, rows);
    let next = NextBlock {
        block: &block,
        bytes: kept,
        last: world.commit_hash(),
    };
    let delta = checked_delta(context, next, &job, ids.as_slice());
    *spent = Some(job.into_key_writers());
    delta
}
