//! The job of the next block of a world, and its delta.
ghost use Rattle.std.specs.Prelude.{◌≡◌, ◌≤◌, List, length, IfOk};
ghost use Rattle.intake.specs.declared.taking.Taken as as_taken;
ghost use Rattle.block.specs.Limits.{max_txs};
ghost use Rattle.channel.specs.Configuration as as_channel;
ghost use Rattle.key_chains.specs.Job.{keys_in, reads_in};
ghost use Rattle.rules.specs.Delta.{AreRealChanges, changes_in, definitions_in};
ghost use Rattle.rules.specs.Fold as fold;
ghost use Rattle.rules.specs.Fold.{final_state, definitions_to};
ghost use Rattle.rules.specs.State.{State, with_changes};
ghost use Rattle.state_db.specs.Batch.{changed};
ghost use Rattle.state_db.specs.LookedUp.{AreRows};
ghost use Rattle.next_block.specs.Changes.{AddEntriesOf, IsChangedBy};
ghost use Rattle.next_block.specs.Tentative.{AreTentativeIn};
ghost use Rattle.next_block.specs.NextDelta.{AreIdsOfTaken, IsDeltaOfJob, IsJobOfTaken, job_over};

use crate::pending::{Changed, PendingDelta, Place};
use crate::tentative::{TentativeJob, tentative_job_of, with_marks};
use channel::Configuration;
use effects::{Effects, effects_of};
use header_hash::header_hash;
use intake::{Taken, tentative_candidates_are_the_definitions};
use key_chains::{BlockRows, Job, KeyWriters};
use linking::LinkedBlock;
use rules::{Flag, uses_of};
use state_db::Batch;
use std::alloc::{AllocError, Global};
use transaction::TxId;
use values::{Bytes, Hash, Shared, Slice};
use world::World;

// A block spells the length of each transaction in so many bytes.
const TX_LENGTH_BYTES: usize = 4;

/// The next block of a chain: linked, with its bytes, to be kept, and the commit hash of the block before it, or none.
#[derive(Drop)]
pub struct NextBlock<'l, 'b> {
    pub block: &'l LinkedBlock<'b>,
    pub bytes: Shared<Bytes>,
    pub last: Option<Hash>,
}

/// Marks the candidates of the next block whose ids were used before; answers the candidates with their key writers,
/// and the id that each of its transactions uses.
///
/// One pass over the ids, and memory for a list of marks. Where an id was used, the key writers are built anew, with
/// memory for them.
pub fn flag_duplicates<'b>(
    alloc: Global,
    world: &World,
    tentative: TentativeJob<'b>,
) -> Result<(KeyWriters<'b>, Vec<Option<TxId>>), AllocError>
    requires count { length tentative.key_writers ≡ length tentative.ids.items }
    requires few { length tentative.ids.items ≤ max_txs }
    ensures few { IfOk result (λ r. length r.0 ≤ max_txs) }
    ensures job { IfOk result (λ r. (channel : as_channel.Configuration) (taken : List as_taken.Taken) → AreTentativeIn taken tentative.entry → IsJobOfTaken channel world.now taken (job_over channel world.now r.0)) }
    ensures ids { IfOk result (λ r. (channel : as_channel.Configuration) (taken : List as_taken.Taken) → AreTentativeIn taken tentative.entry → AreIdsOfTaken channel taken r.1.items) }
{
    tentative_candidates_are_the_definitions();
    let TentativeJob { ids, key_writers } = tentative;
    let used = world.mark(alloc, ids.as_slice())?;
    let key_writers = with_marks(alloc, key_writers, used.as_slice())?;
    Ok((key_writers, ids))
}

/// The job of the next block, of its candidates and of the rows of the keys that they write and read. Constant time, no memory.
pub fn job_over<'s, 'b>(
    channel: &'s Configuration,
    world: &'s World,
    key_writers: KeyWriters<'b>,
    rows: BlockRows<'s>,
) -> Job<'s, 'b>
    requires few { length key_writers ≤ max_txs }
    requires written { AreRows world.now.state (keys_in key_writers) rows.written.rows.items }
    requires read { AreRows world.now.state (reads_in key_writers) rows.read.rows.items }
    ensures { result ≡ job_over channel.entry.now world.entry.now key_writers.entry }
{
    Job::of_found(
        world.height(),
        world.state(),
        world.definitions(),
        channel.admin(),
        key_writers,
        rows,
    )
}

/// The job of the next block, of what was taken in of it, and the id that each of its transactions uses.
///
/// Searches the row of each key that the block writes or reads; costs what [`tentative_job_of`] and [`flag_duplicates`] do
/// beside.
pub fn job_of<'s, 'b>(
    alloc: Global,
    channel: &'s Configuration,
    world: &'s World,
    taken: Vec<Taken<'b>>,
) -> Result<(Job<'s, 'b>, Vec<Option<TxId>>), AllocError>
    requires { length taken.items ≤ max_txs }
    ensures job { IfOk result (λ r. IsJobOfTaken channel.entry.now world.entry.now taken.entry.items r.0) }
    ensures ids { IfOk result (λ r. AreIdsOfTaken channel.entry.now taken.entry.items r.1.items) }
{
    let tentative = tentative_job_of(alloc, taken)?;
    let (key_writers, ids) = flag_duplicates(alloc, world, tentative)?;
    let rows = BlockRows::find(alloc, world.state(), &key_writers)?;
    Ok((job_over(channel, world, key_writers, rows), ids))
}

/// Where the transactions of a block begin in its bytes, of which there are so many. No clause speaks of these places:
/// what is found there is compared with what is written.
fn starts_of(alloc: Global, bytes: usize, txs: &[Slice<'_>]) -> Result<Vec<usize>, AllocError> {
    let mut starts = Vec::with_capacity(alloc, txs.len())?;
    let mut spelled = 0usize;
    for tx in txs {
        spelled = spelled.wrapping_add(TX_LENGTH_BYTES).wrapping_add(tx.len());
    }
    let mut end = bytes.wrapping_sub(spelled);
    for tx in txs {
        let start = end.wrapping_add(TX_LENGTH_BYTES);
        starts.push(start)?;
        end = start.wrapping_add(tx.len());
    }
    Ok(starts)
}

/// The effects of a job, with a batch of its changes.
fn effects_in(
    alloc: Global,
    job: &Job<'_, '_>,
    flags: &[Flag],
    bytes: &Shared<Bytes>,
    txs: &[Slice<'_>],
) -> Result<(Effects, Batch), AllocError>
    requires { flags.now ≡ fold.flags job.now }
    ensures state { IfOk result (λ r. with_changes job.now.state (changes_in r.0.changes.items) ≡ final_state job.now) }
    ensures changes { IfOk result (λ r. AreRealChanges job.now.state (changes_in r.0.changes.items)) }
    ensures history { IfOk result (λ r. AddEntriesOf job.now r.0.entries.items) }
    ensures definitions { IfOk result (λ r. definitions_in r.0.definitions.items ≡ definitions_to job.now (length job.now.candidates)) }
    ensures batch { IfOk result (λ r. (s : State) → changed s r.1 ≡ with_changes s (changes_in r.0.changes.items)) }
{
    let starts = starts_of(alloc, bytes.get().len(), txs)?;
    let effects = effects_of(alloc, job, flags, bytes, starts.as_slice())?;
    let batch = job.batch_of(alloc, effects.changes.as_slice())?;
    Ok((effects, batch))
}

/// What a job changes, and the first uses of ids, where these are its flags.
fn changed_by(
    alloc: Global,
    next: &NextBlock<'_, '_>,
    job: &Job<'_, '_>,
    ids: &[Option<TxId>],
    flags: &[Flag],
) -> Result<Changed, AllocError>
    requires flags { flags.now ≡ fold.flags job.now }
    requires ids { length ids.now ≡ length job.now.candidates }
    requires few { length ids.now ≤ max_txs }
    ensures { IfOk result (IsChangedBy job.now ids.now) }
{
    let uses = uses_of(alloc, job.number(), ids, flags)?;
    let (effects, batch) = effects_in(alloc, job, flags, &next.bytes, next.block.txs())?;
    let update = job.update_bytes(&batch)?;
    Ok(Changed {
        effects,
        batch,
        uses,
        update,
    })
}

/// The delta of the next block, but for its commit hash, of its job, of the ids that its transactions use and of its
/// flags; with the batch of its changes.
///
/// Linear in the block and in what it writes. Memory for the delta, its batch and what is hashed; keys and values are
/// parts of the bytes where they stand there.
pub fn pending_delta_of(
    alloc: Global,
    next: NextBlock<'_, '_>,
    job: &Job<'_, '_>,
    ids: &[Option<TxId>],
    flags: Vec<Flag>,
) -> Result<PendingDelta, AllocError>
    requires flags { flags.items ≡ fold.flags job.now }
    requires ids { length ids.now ≡ length job.now.candidates }
    requires few { length ids.now ≤ max_txs }
    ensures { IfOk result (λ d. IsDeltaOfJob job.now ids.now next.entry.last next.entry.bytes next.entry.block.now d) }
{
    let changed = changed_by(alloc, &next, job, ids, flags.as_slice())?;
    let NextBlock { block, bytes, last } = next;
    let place = Place {
        number: job.number(),
        header_hash: header_hash(block.header()),
        version: block.version(),
        last,
    };
    Ok(PendingDelta::of_parts(place, bytes, flags, changed))
}
