//! At each height of the chain of 32 blocks each query but `definition` answers what a world of its own answers.

use crate::asking::{check_blocks, check_key, check_range, check_use};
use crate::opening::opened_publisher;
use crate::publishing::publish_next;
use chain_vectors::first_blocks::first_blocks;
use chain_vectors::later_blocks::later_blocks;
use chain_vectors::rows::rows;
use chain_vectors::uses::uses;
use chain_vectors::{CHANNEL, Left, SaysOk, read_use};
use channel::Channel;
use ledger::Ledger;
use query::{Publisher, QueryHandle};
use rules::Delta;
use std::alloc::Global;
use std::sync::Wait;
use test_support::Failed;
use transaction::TxId;
use world::World;

const BLOCKS: u64 = 32;

const UNUSED: TxId = [b'0'; 64];

// Row and history, and the ranges that begin at the key or end before it.
fn check_all_at(
    alloc: Global,
    handle: &mut QueryHandle,
    world: &World,
    left: &Left,
) -> Result<(), Failed> {
    let none = b"".as_slice();
    check_key(alloc, handle, world, left.namespace, left.key)?;
    check_range(alloc, handle, world, left.namespace, (left.key, none), 2)?;
    check_range(alloc, handle, world, left.namespace, (none, left.key), 100)
}

// At all keys that the chain writes.
fn check_keys(alloc: Global, handle: &mut QueryHandle, world: &World) -> Result<(), Failed> {
    for left in rows() {
        check_all_at(alloc, handle, world, left)?;
    }
    Ok(())
}

fn check_uses(handle: &mut QueryHandle, world: &World) -> Result<(), Failed> {
    for bytes in uses() {
        check_use(handle, world, &read_use(bytes).id)?;
    }
    check_use(handle, world, &UNUSED)
}

fn check_alike(alloc: Global, handle: &mut QueryHandle, world: &World) -> Result<(), Failed> {
    check_keys(alloc, handle, world)?;
    check_blocks(alloc, handle, world, BLOCKS)?;
    check_uses(handle, world)
}

fn next_delta(ledger: &mut Ledger, bytes: &[u8]) -> Result<Delta, Failed> {
    let delta = ledger.delta(bytes, &SaysOk)?;
    ledger.submit_one(bytes, &SaysOk)?;
    Ok(delta)
}

fn check_next<R: Wait>(
    rt: &R,
    alloc: Global,
    ledger: &mut Ledger,
    publisher: &mut Publisher,
    handle: &mut QueryHandle,
    bytes: &[u8],
) -> Result<(), Failed> {
    let delta = next_delta(ledger, bytes)?;
    publish_next(rt, alloc, publisher, delta)?;
    check_alike(alloc, handle, ledger.view())
}

fn check_all<R: Wait>(
    rt: &R,
    alloc: Global,
    ledger: &mut Ledger,
    publisher: &mut Publisher,
    handle: &mut QueryHandle,
) -> Result<u64, Failed> {
    check_alike(alloc, handle, ledger.view())?;
    for block in first_blocks().iter().chain(later_blocks().iter()) {
        check_next(rt, alloc, ledger, publisher, handle, block.bytes)?;
    }
    Ok(ledger.view().height())
}

// How high the world is in the end, if all is answered alike.
fn alike_up_to<R: Wait>(
    rt: &R,
    alloc: Global,
    publisher: &mut Publisher,
    handles: &mut Vec<QueryHandle>,
) -> Result<u64, Failed> {
    let Some(handle) = handles.first_mut() else {
        return Err(Failed::Missing("a handle"));
    };
    let mut ledger = Ledger::open(alloc, Channel::read(alloc, CHANNEL)?);
    check_all(rt, alloc, &mut ledger, publisher, handle)
}

fn alike_height<R: Wait>(rt: &R, alloc: Global) -> Result<u64, Failed> {
    let (mut publisher, mut handles) = opened_publisher(rt, alloc, 1)?;
    let height = alike_up_to(rt, alloc, &mut publisher, &mut handles);
    publisher.close(rt);
    height
}

#[test]
fn each_query_at_each_height(rt: HostRuntime) -> Result<(), Failed> {
    assert!(rt; alike_height(&rt, rt.alloc())? == BLOCKS);
    Ok(())
}
