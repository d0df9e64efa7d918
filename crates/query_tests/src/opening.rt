//! Committers that are opened for tests, publishers over empty worlds, and blocks that a committer is to take.
ghost use Rattle.std.specs.Prelude.{◌≡◌, All, IfOk};

use crate::blocks::{configuration, empty_world};
use commit::{Committer, QueryHandle, Receipt};
use gates::Gate;
use key_book::KeyBook;
use query::{OpenFault, Publisher, open};
use std::alloc::Global;
use std::sync::Wait;
use std::thread::Threads;
use test_support::Failed;

/// A committer of the channel of all blocks.
pub fn opened<R: Wait>(
    rt: &R,
    alloc: Global,
    workers: usize,
    handles: usize,
) -> Result<(Committer, Vec<QueryHandle>), Failed>
    ensures { IfOk result (λ opened. All (λ h. h.book ≡ opened.0.book) opened.1.items) }
{
    match Committer::open(alloc, rt, configuration(alloc)?, workers, handles) {
        Ok(opened) => Ok(opened),
        Err(_) => Err(Failed::Missing("a committer")),
    }
}

/// A publisher over worlds without chaincodes.
pub fn opened_publisher<R: Wait>(
    rt: &R,
    alloc: Global,
    handles: usize,
) -> Result<(Publisher, Vec<QueryHandle>), OpenFault>
    ensures { IfOk result (λ opened. All (λ h. h.book ≡ opened.0.book) opened.1.items) }
{
    open(alloc, rt, empty_world(alloc), empty_world(alloc), handles)
}

/// Wants the block committed, and every verdict found by a worker.
pub fn submit_next<R: Threads + Wait + Sync, G: Gate + Sync>(
    rt: &R,
    committer: &mut Committer,
    keys: &KeyBook,
    bytes: &[u8],
    gate: &G,
) -> Result<Receipt, Failed>
    ensures book { committer.new.book ≡ committer.old.book }
    ensures receipt { IfOk result (λ r. r.front.book ≡ committer.old.book) }
{
    let Ok(receipt) = committer.submit(rt, bytes, keys, gate) else {
        return Err(Failed::Missing("a receipt"));
    };
    if committer.gathered() != 0 {
        return Err(Failed::Missing("a verdict that a worker found"));
    }
    Ok(receipt)
}
