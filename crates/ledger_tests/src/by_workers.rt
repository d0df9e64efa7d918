//! The chains once more, by committers of few and of many workers.

use crate::asked::check_left;
use crate::committers::{Trial, check_by, refusal_of, submitted, worker_counts};
use crate::fixture::{are_numbered, channel_with, named};
use crate::refusals::{Change, changed, changes, refusal};
use crate::scripted::ScriptedPeer;
use crate::worked_chains::worked;
use block::{BlockVersion, MAX_TXS};
use chain_vectors::first_blocks::first_blocks;
use chain_vectors::later_blocks::later_blocks;
use chain_vectors::rows::rows;
use chain_vectors::uses::uses;
use chain_vectors::worked_reads::worked_reads;
use chain_vectors::{Committed, SaysOk, Scripted, WorkedChain};
use commit::{Committer, NotCommitted, QueryHandle};
use gates::{Gate, Open, Reverse};
use key_book::KeyBook;
use std::alloc::{AllocError, Global};
use std::sync::Wait;
use std::thread::Threads;
use test_support::{Failed, check};
use values::Bytes;

/// How blocks are handed in: by how many workers, and whether checks go in reverse.
#[derive(Clone, Copy)]
pub struct Way {
    pub workers: usize,
    pub is_reverse: bool,
}

/// By 1, 2 and 64 workers, in order and in reverse.
pub fn ways() -> &'static [Way] {
    &WAYS
}

static WAYS: [Way; 6] = [
    Way {
        workers: 1,
        is_reverse: false,
    },
    Way {
        workers: 2,
        is_reverse: false,
    },
    Way {
        workers: 64,
        is_reverse: false,
    },
    Way {
        workers: 1,
        is_reverse: true,
    },
    Way {
        workers: 2,
        is_reverse: true,
    },
    Way {
        workers: 64,
        is_reverse: true,
    },
];

/// The bytes of a block, the keys of those who sign in it, and the flags that it should get.
#[derive(Clone, Copy)]
pub struct Flagged<'a> {
    pub bytes: &'a [u8],
    pub keys: &'a KeyBook,
    pub flags: &'a [u8],
}

fn is_committed<R: Threads + Wait + Sync, G: Gate + Sync>(
    rt: &R,
    committer: &mut Committer,
    block: Flagged<'_>,
    gate: &G,
) -> bool {
    match submitted(rt, committer, block.bytes, block.keys, gate) {
        Ok(receipt) => {
            are_numbered(receipt.flags.as_slice(), block.flags) && committer.gathered() == 0
        }
        Err(_) => false,
    }
}

fn is_committed_in_reverse<R: Threads + Wait + Sync>(
    rt: &R,
    alloc: Global,
    committer: &mut Committer,
    block: Flagged<'_>,
) -> Result<bool, AllocError> {
    let reverse = Reverse::new(alloc, block.flags.len().min(MAX_TXS) as u32)?;
    Ok(is_committed(rt, committer, block, &reverse))
}

/// Whether the block is committed with these flags.
pub fn is_committed_in<R: Threads + Wait + Sync>(
    rt: &R,
    alloc: Global,
    way: Way,
    committer: &mut Committer,
    block: Flagged<'_>,
) -> Result<bool, AllocError> {
    if way.is_reverse {
        is_committed_in_reverse(rt, alloc, committer, block)
    } else {
        Ok(is_committed(rt, committer, block, &Open))
    }
}

/// The blocks of a short chain, handed in one by one.
#[derive(Clone, Copy)]
pub struct ShortChain<'a> {
    way: Way,
    keys: &'a KeyBook,
    blocks: &'a [Bytes],
    chain: &'a WorkedChain,
}

impl ShortChain<'_> {
    fn check_next<R: Threads + Wait + Sync>(
        &self,
        rt: &R,
        alloc: Global,
        committer: &mut Committer,
        bytes: &Bytes,
        block: &Scripted,
    ) -> Result<(), Failed> {
        let block = Flagged {
            bytes: bytes.as_slice(),
            keys: self.keys,
            flags: block.flags,
        };
        check(is_committed_in(rt, alloc, self.way, committer, block)?)
    }

    fn check_committed<R: Threads + Wait + Sync>(
        &self,
        rt: &R,
        alloc: Global,
        committer: &mut Committer,
    ) -> Result<(), Failed> {
        for (bytes, block) in self.blocks.iter().zip(self.chain.blocks) {
            self.check_next(rt, alloc, committer, bytes, block)?;
        }
        check(self.blocks.len() == self.chain.blocks.len())
    }

    /// Wants the flags, and what is left told by the handle.
    pub fn check_with<R: Threads + Wait + Sync>(
        &self,
        rt: &R,
        alloc: Global,
        committer: &mut Committer,
        handle: &mut QueryHandle,
    ) -> Result<(), Failed> {
        self.check_committed(rt, alloc, committer)?;
        check_left(
            alloc,
            handle,
            self.chain.left,
            self.chain.uses.as_chunks().0,
        )
    }
}

fn check_in<R: Threads + Wait + Sync>(
    rt: &R,
    alloc: Global,
    way: Way,
    keys: &KeyBook,
    blocks: &[Bytes],
    chain: &WorkedChain,
) -> Result<(), Failed> {
    let channel = channel_with(alloc, "")?;
    let trial = Trial::Short(ShortChain {
        way,
        keys,
        blocks,
        chain,
    });
    check_by(rt, alloc, channel, way.workers, &trial)
}

fn check_in_all<R: Threads + Wait + Sync>(
    rt: &R,
    alloc: Global,
    keys: &KeyBook,
    blocks: &[Bytes],
    chain: &WorkedChain,
) -> Result<(), Failed> {
    for way in ways() {
        check_in(rt, alloc, *way, keys, blocks, chain)?;
    }
    Ok(())
}

fn add_drafted(
    alloc: Global,
    peer: &mut ScriptedPeer,
    block: &Scripted,
    blocks: &mut Vec<Bytes>,
) -> Result<(), Failed> {
    let bytes = peer.taken(alloc, block.script, block.flags)?;
    Ok(blocks.push(bytes)?)
}

// The blocks of the chain, which the peer has taken.
fn drafted(
    alloc: Global,
    peer: &mut ScriptedPeer,
    chain: &WorkedChain,
) -> Result<Vec<Bytes>, Failed> {
    let mut blocks = Vec::new(alloc);
    for block in chain.blocks {
        add_drafted(alloc, peer, block, &mut blocks)?;
    }
    Ok(blocks)
}

fn check_drafted<R: Threads + Wait + Sync>(
    rt: &R,
    alloc: Global,
    peer: &mut ScriptedPeer,
    chain: &WorkedChain,
) -> Result<(), Failed> {
    let blocks = drafted(alloc, peer, chain)?;
    check_in_all(rt, alloc, peer.keys(), &blocks, chain)
}

fn check_short<R: Threads + Wait + Sync>(
    rt: &R,
    alloc: Global,
    version: BlockVersion,
    chain: &WorkedChain,
) -> Result<(), Failed> {
    let mut peer = ScriptedPeer::of(alloc, version)?;
    check_drafted(rt, alloc, &mut peer, chain)
}

// Wants these chains in blocks of this version.
fn check_each<R: Threads + Wait + Sync>(
    rt: &R,
    alloc: Global,
    version: BlockVersion,
    chains: &'static [WorkedChain],
) -> Result<(), Failed> {
    for chain in chains {
        named(chain.name, check_short(rt, alloc, version, chain))?;
    }
    Ok(())
}

#[test]
fn flags_and_what_is_left_by_workers(rt: HostRuntime) -> Result<(), Failed> {
    for part in 0..3 {
        check_each(&rt, rt.alloc(), BlockVersion::V1, worked(part))?;
    }
    Ok(())
}

#[test]
fn the_same_in_version_2_by_workers(rt: HostRuntime) -> Result<(), Failed> {
    check_each(&rt, rt.alloc(), BlockVersion::V2, worked_reads())
}

fn is_at_height(handle: &mut QueryHandle, height: u64) -> Result<bool, Failed> {
    let reply = handle.height()?;
    Ok(reply.answer == height && reply.height == height)
}

// Wants the bytes refused where they are changed so.
fn check_refused<R: Threads + Wait + Sync>(
    rt: &R,
    alloc: Global,
    committer: &mut Committer,
    bytes: &[u8],
    change: Change,
    height: u64,
) -> Result<(), Failed> {
    let bytes = changed(alloc, bytes, change)?;
    let wanted = NotCommitted::Refused(refusal(change, height));
    check(refusal_of(rt, committer, &bytes, &SaysOk) == Some(wanted))
}

// Before every sixteenth block it is handed in changed, and the handle still answers this height.
fn check_all_refused<R: Threads + Wait + Sync>(
    rt: &R,
    alloc: Global,
    committer: &mut Committer,
    handle: &mut QueryHandle,
    bytes: &[u8],
    height: u64,
) -> Result<(), Failed> {
    if height % 16 != 3 {
        return Ok(());
    }
    for change in changes() {
        check_refused(rt, alloc, committer, bytes, *change, height)?;
        check(is_at_height(handle, height)?)?;
    }
    Ok(())
}

// Whether the committer accepts this block of the chain with its header hash and flags.
fn is_accepted<R: Threads + Wait + Sync>(
    rt: &R,
    committer: &mut Committer,
    block: &Committed,
) -> bool {
    match submitted(rt, committer, block.bytes, &SaysOk, &Open) {
        Ok(receipt) => {
            receipt.header_hash == *block.header_hash
                && are_numbered(receipt.flags.as_slice(), block.flags)
                && committer.gathered() == 0
        }
        Err(_) => false,
    }
}

fn check_next<R: Threads + Wait + Sync>(
    rt: &R,
    alloc: Global,
    committer: &mut Committer,
    handle: &mut QueryHandle,
    block: &Committed,
    height: u64,
) -> Result<(), Failed> {
    check_all_refused(rt, alloc, committer, handle, block.bytes, height)?;
    check(is_accepted(rt, committer, block))
}

/// Wants the chain of 32 blocks accepted, and what is left told by the handle.
pub fn check_chain<R: Threads + Wait + Sync>(
    rt: &R,
    alloc: Global,
    committer: &mut Committer,
    handle: &mut QueryHandle,
) -> Result<(), Failed> {
    let blocks = first_blocks().iter().chain(later_blocks().iter());
    for (number, block) in blocks.enumerate() {
        check_next(rt, alloc, committer, handle, block, number as u64)?;
    }
    check_left(alloc, handle, rows(), uses())
}

fn check_chain_by<R: Threads + Wait + Sync>(
    rt: &R,
    alloc: Global,
    workers: usize,
) -> Result<(), Failed> {
    let channel = channel_with(alloc, "")?;
    check_by(rt, alloc, channel, workers, &Trial::Chain)
}

#[test]
fn the_chain_by_workers(rt: HostRuntime) -> Result<(), Failed> {
    for workers in worker_counts() {
        check_chain_by(&rt, rt.alloc(), *workers)?;
    }
    Ok(())
}
