//! Committers of few and of many workers, with one handle each, and what is tried with them.

use crate::by_workers::{ShortChain, check_chain};
use crate::limits::check_limits;
use crate::links::check_links;
use crate::updates_by_workers::UpdatedChain;
use crate::versions::HandedIn;
use commit::{Channel, Committer, NotCommitted, QueryHandle, Receipt};
use gates::{Gate, Open};
use policy_eval::Verify;
use std::alloc::Global;
use std::sync::Wait;
use std::thread::Threads;
use test_support::Failed;

/// How many workers committers have.
pub fn worker_counts() -> &'static [usize] {
    &WORKERS
}

static WORKERS: [usize; 3] = [1, 2, 64];

/// What is tried with a committer.
#[derive(Clone, Copy)]
pub enum Trial<'a> {
    /// The blocks of a short chain, one by one.
    Short(ShortChain<'a>),
    /// The chain of 32 blocks.
    Chain,
    /// A block of too many transactions, and one of the most.
    Limits,
    /// Blocks that continue a chain, and such that don't.
    Links,
    /// Blocks of both versions.
    Versions(HandedIn<'a>),
    /// Blocks with updates.
    Updates(UpdatedChain<'a>),
}

fn check_with<R: Threads + Wait + Sync>(
    rt: &R,
    alloc: Global,
    committer: &mut Committer,
    handle: &mut QueryHandle,
    trial: &Trial<'_>,
) -> Result<(), Failed> {
    match trial {
        Trial::Short(chain) => chain.check_with(rt, alloc, committer, handle),
        Trial::Chain => check_chain(rt, alloc, committer, handle),
        Trial::Limits => check_limits(rt, alloc, committer, handle),
        Trial::Links => check_links(rt, committer, handle),
        Trial::Versions(blocks) => blocks.check_with(rt, committer),
        Trial::Updates(chain) => chain.check_with(rt, alloc, committer, handle),
    }
}

fn check_with_first<R: Threads + Wait + Sync>(
    rt: &R,
    alloc: Global,
    committer: &mut Committer,
    handles: &mut Vec<QueryHandle>,
    trial: &Trial<'_>,
) -> Result<(), Failed> {
    let Some(handle) = handles.first_mut() else {
        return Err(Failed::Missing("a handle"));
    };
    check_with(rt, alloc, committer, handle, trial)
}

/// Tries it with a committer of this channel with so many workers, which is closed then. Fails where something isn't as wanted.
pub fn check_by<R: Threads + Wait + Sync>(
    rt: &R,
    alloc: Global,
    channel: Channel,
    workers: usize,
    trial: &Trial<'_>,
) -> Result<(), Failed> {
    let Ok((mut committer, mut handles)) = Committer::open(alloc, rt, channel, workers, 1) else {
        return Err(Failed::Missing("a committer"));
    };
    let checked = check_with_first(rt, alloc, &mut committer, &mut handles, trial);
    committer.close(rt);
    checked
}

/// Hands in the bytes of the next block.
pub fn submitted<R: Threads + Wait + Sync, V: Verify + Sync, G: Gate + Sync>(
    rt: &R,
    committer: &mut Committer,
    bytes: &[u8],
    verifier: &V,
    gate: &G,
) -> Result<Receipt, NotCommitted> {
    committer.submit(rt, bytes, verifier, gate)
}

/// Why the bytes aren't committed, if they aren't.
pub fn refusal_of<R: Threads + Wait + Sync, V: Verify + Sync>(
    rt: &R,
    committer: &mut Committer,
    bytes: &[u8],
    verifier: &V,
) -> Option<NotCommitted> {
    submitted(rt, committer, bytes, verifier, &Open).err()
}
