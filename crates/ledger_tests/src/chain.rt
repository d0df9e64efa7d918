//! The chain of 32 blocks that reaches every flag but 6, and what is refused between them.

use crate::fixture::{Peer, are_numbered};
use crate::refusals::check_refusals;
use crate::shown::{are_used, check_rows};
use chain_vectors::first_blocks::first_blocks;
use chain_vectors::later_blocks::later_blocks;
use chain_vectors::rows::rows;
use chain_vectors::uses::uses;
use chain_vectors::{Committed, SaysOk};
use rules::CommittedBlock;
use std::alloc::Global;
use test_support::Failed;
use world::World;

fn take(peer: &mut Peer, block: &Committed) -> Result<(), Failed> {
    if !peer.is_taken(block.bytes, &SaysOk, block.flags)? {
        return Err(Failed::Missing("the flags of a block"));
    }
    if peer.world().header_hash() != Some(*block.header_hash) {
        return Err(Failed::Missing("the header hash of a block"));
    }
    Ok(())
}

// Between the blocks others are refused.
fn take_all(alloc: Global, peer: &mut Peer) -> Result<(), Failed> {
    for block in first_blocks().iter().chain(later_blocks().iter()) {
        check_refusals(alloc, peer, block.bytes)?;
        take(peer, block)?;
    }
    Ok(())
}

fn is_kept(kept: Option<&CommittedBlock>, block: &Committed) -> bool {
    let Some(kept) = kept else {
        return false;
    };
    kept.bytes.get().as_slice() == block.bytes
        && kept.header_hash == *block.header_hash
        && are_numbered(kept.flags.as_slice(), block.flags)
}

// Whether all blocks are kept as they were taken.
fn are_kept(world: &World) -> bool {
    let blocks = first_blocks().iter().chain(later_blocks().iter());
    for (number, block) in blocks.enumerate() {
        if !is_kept(world.block(number as u64), block) {
            return false;
        }
    }
    true
}

fn is_nothing_else(world: &World) -> bool {
    world.height() == 32 && world.block(32).is_none() && world.flag_of(&[b'0'; 64]).is_none()
}

fn check_left(alloc: Global, world: &World) -> Result<(), Failed> {
    check_rows(alloc, world, rows())?;
    if !are_used(world, uses()) {
        return Err(Failed::Missing("the first uses"));
    }
    if !are_kept(world) {
        return Err(Failed::Missing("the blocks"));
    }
    if !is_nothing_else(world) {
        return Err(Failed::Missing("nothing else"));
    }
    Ok(())
}

fn check_by(alloc: Global, peer: &mut Peer) -> Result<(), Failed> {
    take_all(alloc, peer)?;
    check_left(alloc, peer.world())
}

fn check_chain(alloc: Global) -> Result<(), Failed> {
    let mut peer = Peer::open(alloc)?;
    check_by(alloc, &mut peer)
}

#[test]
fn flags_and_what_is_left(rt: HostRuntime) -> Result<(), Failed> {
    check_chain(rt.alloc())
}
