//! Blocks that are handed in at once.

use crate::fixture::{bare_ledger, read_keys};
use crate::scripted::ScriptedPeer;
use commit::{Accepted, Refused};
use key_book::KeyBook;
use ledger::Ledger;
use std::alloc::Global;
use test_support::{Failed, check};
use values::{Bytes, Hash};

// The header hashes of blocks 0 and 1 without transactions, by Python's pyasn1 and hashlib.
static HASH_0: Hash = [
    0x9c, 0xae, 0x6f, 0x5c, 0x10, 0x75, 0x6f, 0xeb, 0xc4, 0x07, 0xbb, 0xa9, 0x5f, 0xc2, 0x38, 0x53,
    0x77, 0x4c, 0x1f, 0x65, 0xf1, 0x03, 0x54, 0x89, 0x5b, 0xfd, 0xab, 0x64, 0x43, 0xd6, 0x6e, 0xd3,
];

static HASH_1: Hash = [
    0x91, 0x83, 0x2d, 0x32, 0x53, 0x1b, 0xdf, 0xd1, 0xa2, 0x85, 0xdd, 0x11, 0x74, 0x22, 0xf8, 0xd7,
    0x7e, 0xea, 0x07, 0xca, 0x7f, 0x93, 0x7b, 0x91, 0xb5, 0x5d, 0xed, 0xa9, 0xe6, 0x3d, 0x72, 0x6e,
];

fn add_copy(alloc: Global, block: &Bytes, blocks: &mut Vec<Bytes>) -> Result<(), Failed> {
    let copy = block.copy(alloc)?;
    Ok(blocks.push(copy)?)
}

// Adds the next block, without transactions; the first one twice.
fn add_next(alloc: Global, peer: &mut ScriptedPeer, blocks: &mut Vec<Bytes>) -> Result<(), Failed> {
    let block = peer.taken(alloc, "", &[])?;
    if blocks.is_empty() {
        add_copy(alloc, &block, blocks)?;
    }
    Ok(blocks.push(block)?)
}

fn add_twelve(alloc: Global, blocks: &mut Vec<Bytes>) -> Result<(), Failed> {
    let mut peer = ScriptedPeer::open(alloc)?;
    for _ in 0..12 {
        add_next(alloc, &mut peer, blocks)?;
    }
    Ok(())
}

// The first of twelve twice, then those that follow it.
fn chain(alloc: Global) -> Result<Vec<Bytes>, Failed> {
    let mut blocks = Vec::new(alloc);
    add_twelve(alloc, &mut blocks)?;
    Ok(blocks)
}

fn has_hash(answer: Option<&Result<Accepted, Refused>>, hash: &Hash) -> bool {
    match answer {
        Some(Ok(accepted)) => accepted.header_hash == *hash,
        _ => false,
    }
}

fn is_refused(answer: Option<&Result<Accepted, Refused>>) -> bool {
    match answer {
        Some(Err(refused)) => *refused == Refused::WrongNumber { want: 1, got: 0 },
        _ => false,
    }
}

fn are_answers(answers: &[Result<Accepted, Refused>]) -> bool {
    answers.len() == 13
        && has_hash(answers.first(), &HASH_0)
        && is_refused(answers.get(1))
        && has_hash(answers.get(2), &HASH_1)
        && answers.iter().skip(2).all(|answer| answer.is_ok())
}

fn is_empty(ledger: &Ledger) -> bool {
    ledger.view().height() == 0 && ledger.view().header_hash().is_none()
}

fn check_none(ledger: &mut Ledger, keys: &KeyBook) -> Result<(), Failed> {
    let answers = ledger.submit_all(&[], keys)?;
    check(answers.is_empty() && is_empty(ledger))
}

fn check_answered(alloc: Global, ledger: &mut Ledger, keys: &KeyBook) -> Result<(), Failed> {
    let blocks = chain(alloc)?;
    let answers = ledger.submit_all(&blocks, keys)?;
    check(are_answers(answers.as_slice()) && ledger.view().height() == 12)
}

fn check_both(alloc: Global, ledger: &mut Ledger, keys: &KeyBook) -> Result<(), Failed> {
    check_none(ledger, keys)?;
    check_answered(alloc, ledger, keys)
}

fn check_ledger(alloc: Global, keys: &KeyBook) -> Result<(), Failed> {
    let mut ledger = bare_ledger(alloc)?;
    check_both(alloc, &mut ledger, keys)
}

fn check_at_once(alloc: Global) -> Result<(), Failed> {
    let keys = read_keys(alloc, "")?;
    check_ledger(alloc, &keys)
}

#[test]
fn all_at_once(rt: HostRuntime) -> Result<(), Failed> {
    check_at_once(rt.alloc())
}
