//! Blocks of as many transactions as there can be, and of one more, by committers. None of the transactions is one.

use crate::committers::{Trial, check_by, refusal_of, submitted, worker_counts};
use crate::fixture::channel_with;
use block::BlockFault;
use chain_vectors::SaysOk;
use commit::{Committer, Flag, NotCommitted, QueryHandle, Receipt, Refused};
use gates::Open;
use std::alloc::{AllocError, Global};
use std::sync::Wait;
use std::thread::Threads;
use test_support::{Failed, check};
use values::Hash;

// Before the count: block 0, whose data hash is SHA-256 of no bytes (FIPS 180-4).
const FRONT: &[u8] = b"FBK1\0\0\0\0\0\0\0\0\0\
    \xe3\xb0\xc4\x42\x98\xfc\x1c\x14\x9a\xfb\xf4\xc8\x99\x6f\xb9\x24\
    \x27\xae\x41\xe4\x64\x9b\x93\x4c\xa4\x95\x99\x1b\x78\x52\xb8\x55";

// The header hash of that block, by Python's pyasn1 and hashlib.
static HEADER_HASH: Hash = [
    0x9c, 0xae, 0x6f, 0x5c, 0x10, 0x75, 0x6f, 0xeb, 0xc4, 0x07, 0xbb, 0xa9, 0x5f, 0xc2, 0x38, 0x53,
    0x77, 0x4c, 0x1f, 0x65, 0xf1, 0x03, 0x54, 0x89, 0x5b, 0xfd, 0xab, 0x64, 0x43, 0xd6, 0x6e, 0xd3,
];

const MOST: u32 = 4096;

// A block of so many transactions without bytes.
fn block_of(alloc: Global, count: u32) -> Result<Vec<u8>, AllocError> {
    let txs = b"\0\0\0\0".repeat(alloc, count as usize)?;
    [FRONT, count.to_be_bytes().as_slice(), &txs].concat(alloc)
}

fn are_bad_payloads(flags: &[Flag]) -> bool {
    flags.len() == MOST as usize && flags.iter().all(|flag| flag.number() == 2)
}

fn is_of_most(answer: &Result<Receipt, NotCommitted>) -> bool {
    match answer {
        Ok(receipt) => {
            receipt.height == 1
                && receipt.header_hash == HEADER_HASH
                && are_bad_payloads(receipt.flags.as_slice())
        }
        Err(_) => false,
    }
}

const TOO_MANY: NotCommitted = NotCommitted::Refused(Refused::Malformed(BlockFault::TooManyTxs));

fn check_height(handle: &mut QueryHandle, height: u64) -> Result<(), Failed> {
    let reply = handle.height()?;
    check(reply.answer == height)
}

fn check_refused<R: Threads + Wait + Sync>(
    rt: &R,
    alloc: Global,
    committer: &mut Committer,
) -> Result<(), Failed> {
    let more = block_of(alloc, MOST + 1)?;
    check(refusal_of(rt, committer, &more, &SaysOk) == Some(TOO_MANY))
}

fn check_accepted<R: Threads + Wait + Sync>(
    rt: &R,
    alloc: Global,
    committer: &mut Committer,
) -> Result<(), Failed> {
    let most = block_of(alloc, MOST)?;
    let answer = submitted(rt, committer, &most, &SaysOk, &Open);
    check(is_of_most(&answer))
}

/// Wants a block of too many transactions refused, which the handle doesn't see, and one of the most accepted then.
pub fn check_limits<R: Threads + Wait + Sync>(
    rt: &R,
    alloc: Global,
    committer: &mut Committer,
    handle: &mut QueryHandle,
) -> Result<(), Failed> {
    check_refused(rt, alloc, committer)?;
    check_height(handle, 0)?;
    check_accepted(rt, alloc, committer)?;
    check(committer.gathered() == 0)?;
    check_height(handle, 1)
}

fn check_limits_by<R: Threads + Wait + Sync>(
    rt: &R,
    alloc: Global,
    workers: usize,
) -> Result<(), Failed> {
    let channel = channel_with(alloc, "")?;
    check_by(rt, alloc, channel, workers, &Trial::Limits)
}

#[test]
fn the_most_transactions_by_workers(rt: HostRuntime) -> Result<(), Failed> {
    for workers in worker_counts() {
        check_limits_by(&rt, rt.alloc(), *workers)?;
    }
    Ok(())
}
