//! Pre-checking all of a block, by one thread or by a crew, and what that needs.
ghost use Rattle.std.specs.Prelude.{◌≡◌, ◌≤◌, ◌<◌, length, map, IfOk};
ghost use Rattle.header_hash.specs.Hashes.{data_hash_of};
ghost use Rattle.transaction.specs.Items.{item_of};
ghost use Rattle.intake.specs.Place.{taken_of, shown};
ghost use Rattle.pieces.specs.Pieces.{Fits};
ghost use Rattle.rules.specs.Commit.{items_of};
ghost use Rattle.intake_workers.specs.Parts.{IsTakenPart};

use crate::part::Part;
use crate::taken_part::{TakenPart, join_parts, take_in_part};
use channel::Configuration;
use gates::{Gate, Phase};
use header_hash::data_hash;
use intake::{Taken, take_in_one};
use linking::{DecodedBlock, HashedBlock};
use pieces::{Crew, Work, in_pieces};
use policy_eval::Verify;
use std::alloc::{AllocError, Global};
use std::thread;
use std::thread::Threads;
use transaction::BlockVersion;
use values::{Hash, Slice};

/// What pre-checking needs: whose rules hold, who verifies signatures, and the gate that each transaction passes first.
#[derive(Clone, Copy)]
pub struct IntakeRules<'s, V, G> {
    pub channel: &'s Configuration,
    pub verifier: &'s V,
    pub gate: &'s G,
}

// Other threads may run after this many transactions, and a part has no more if a crew pre-checks the block.
const MOST_TXS: usize = 32;

// So that few large transactions are spread over workers too.
const MOST_BYTES: usize = 1 << 20;

// A thread of its own costs as much as a few transactions.
const WORTH_A_THREAD: usize = 16;

/// Pre-checks transactions of a block of this version, whose first one is at this place. Yields now and then if other
/// threads are at work too.
pub(crate) fn take_txs<'a, V: Verify, G: Gate>(
    alloc: Global,
    rules: &IntakeRules<'_, V, G>,
    version: BlockVersion,
    start: usize,
    txs: &[Slice<'a>],
    is_alone: bool,
) -> Result<Vec<Taken<'a>>, AllocError>
    ensures { IfOk result (λ taken. map shown taken.items ≡ map (taken_of rules.now.channel.now (V.accepts rules.now.verifier.now)) (map (item_of version) txs.now)) }
{
    let mut all = Vec::with_capacity(alloc, txs.len())?;
    let mut index = start;
    for bytes in txs {
        rules
            .gate
            .at(Phase::Intake, u32::try_from(index).unwrap_or(u32::MAX));
        all.push(take_in_one(
            alloc,
            rules.channel,
            rules.verifier,
            version,
            bytes.as_slice(),
        )?)?;
        index = index.wrapping_add(1);
        // there may be more threads at work than processors, and the commit thread must not wait for one until the
        // block is pre-checked
        if !is_alone && index % MOST_TXS == 0 {
            thread::yield_now();
        }
    }
    Ok(all)
}

/// A hashed block, and its pre-checked items, in order.
#[derive(Drop)]
pub struct TakenIn<'a> {
    pub block: HashedBlock<'a>,
    pub items: Vec<Taken<'a>>,
}

/// The data hash of a block's transactions.
pub(crate) fn hash_of(block: &DecodedBlock<'_>) -> Hash
    ensures { result ≡ data_hash_of block.now.txs }
{
    data_hash(block.txs())
}

/// Pre-checks all items of a block, and hashes it, on the calling thread only.
fn take_in_alone<'a, V: Verify, G: Gate>(
    alloc: Global,
    rules: &IntakeRules<'_, V, G>,
    block: DecodedBlock<'a>,
) -> Result<TakenIn<'a>, AllocError>
    ensures block { IfOk result (λ t. t.block ≡ block.entry) }
    ensures items { IfOk result (λ t. map shown t.items.items ≡ map (taken_of rules.now.channel.now (V.accepts rules.now.verifier.now)) (items_of block.entry)) }
{
    let hash = hash_of(&block);
    let items = take_txs(alloc, rules, block.version(), 0, block.txs(), true)?;
    Ok(TakenIn {
        block: block.with_data_hash(hash),
        items,
    })
}

/// The work on a part of a block: pre-checking it.
#[derive(Clone, Copy)]
struct OfBlock<'w, 'a, 's, V, G> {
    rules: &'w IntakeRules<'s, V, G>,
    block: &'w DecodedBlock<'a>,
}

impl<'w, 'a, 's, V: Verify, G: Gate> Work<Part, TakenPart<'a>> for OfBlock<'w, 'a, 's, V, G> {
    ghost gives = { λ s part taken. IsTakenPart s.rules.now.channel.now (V.accepts s.rules.now.verifier.now) s.block.now part.count part.number taken };

    fn make(&self, alloc: Global, part: &Part) -> Result<TakenPart<'a>, AllocError> {
        take_in_part(alloc, self.rules, self.block, *part)
    }
}

/// In how many parts a crew pre-checks these transactions: parts of up to 32, or of about 1 MiB on average.
fn parts_for(txs: &[Slice<'_>]) -> usize
    ensures { 0 < result }
{
    let mut bytes = 0usize;
    for tx in txs {
        bytes = bytes.saturating_add(tx.as_slice().len());
    }
    txs.len()
        .div_ceil(MOST_TXS)
        .max(bytes / MOST_BYTES)
        .min(txs.len())
        .max(1)
}

/// What a crew returns for a block in `count` parts.
fn taken_by<'a, R: Threads + Sync, V: Verify + Sync, G: Gate + Sync>(
    crew: &Crew<'_, R>,
    rules: &IntakeRules<'_, V, G>,
    block: &DecodedBlock<'a>,
    count: usize,
) -> Result<Vec<TakenPart<'a>>, AllocError>
    ensures len { IfOk result (λ parts. length parts.items ≡ count) }
    ensures parts { IfOk result (λ parts. Fits (IsTakenPart rules.now.channel.now (V.accepts rules.now.verifier.now) block.now count) parts.items) }
{
    let parts = Part::all(crew.alloc, count)?;
    let useful = Crew {
        rt: crew.rt,
        alloc: crew.alloc,
        workers: crew.workers.min(count),
    };
    in_pieces(&useful, parts.as_slice(), &OfBlock { rules, block })
}

/// Pre-checks all items of a block, and hashes it, by a crew: each thread takes parts, of at most 32 transactions, or
/// of about 1 MiB on average if there are few large ones. A thread that can't be started is skipped. No more are
/// started than there are parts, and none for fewer than 16 transactions. Linear in the block's bytes and its
/// signatures. The only `Err` is out of memory.
pub fn take_in<'a, R: Threads + Sync, V: Verify + Sync, G: Gate + Sync>(
    crew: &Crew<'_, R>,
    rules: &IntakeRules<'_, V, G>,
    block: DecodedBlock<'a>,
) -> Result<TakenIn<'a>, AllocError>
    ensures block { IfOk result (λ t. t.block ≡ block.entry) }
    ensures items { IfOk result (λ t. map shown t.items.items ≡ map (taken_of rules.now.channel.now (V.accepts rules.now.verifier.now)) (items_of block.entry)) }
{
    if crew.workers == 1 || block.txs().len() < WORTH_A_THREAD {
        return take_in_alone(crew.alloc, rules, block);
    }
    let parts = taken_by(crew, rules, &block, parts_for(block.txs()))?;
    join_parts(crew.alloc, rules, block, parts)
}
