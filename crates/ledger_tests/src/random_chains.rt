//! Chains at random, which the ledger takes as they are to be taken.

use crate::alike::Pair;
use crate::fixture::{CREATOR, named, numbered};
use crate::forgers::{Books, FORGER, read_books};
use crate::random_scripts::{NONCES, keys, namespaces, script_at_random};
use crate::scripted::next_block;
use block::BlockVersion;
use header_hash::tx_id;
use key_book::KeyBook;
use std::alloc::{AllocError, Global};
use std::ops::Range;
use test_support::{Failed, Random, check};
use transaction::TxId;
use values::Bytes;
use world::World;

fn drafted_at_random(
    alloc: Global,
    random: &mut Random,
    keys: &KeyBook,
    world: &World,
    nonces: &mut Vec<u8>,
) -> Result<Bytes, Failed> {
    let script = script_at_random(alloc, random, keys, world, nonces)?;
    let version = version_at_random(random, world);
    next_block(alloc, keys, version, world, script.as_str())
}

// Seldom another one than the last block's.
fn version_at_random(random: &mut Random, world: &World) -> BlockVersion {
    match (world.version(), random.one_of(8)) {
        (BlockVersion::V1, false) | (BlockVersion::V2, true) => BlockVersion::V1,
        _ => BlockVersion::V2,
    }
}

/// The next block of a world, at random.
pub fn block_at_random(
    alloc: Global,
    random: &mut Random,
    keys: &KeyBook,
    world: &World,
    nonces: &mut Vec<u8>,
) -> Result<Vec<u8>, Failed> {
    let block = drafted_at_random(alloc, random, keys, world, nonces)?;
    Ok(with_other_front(random, block))
}

/// The bytes of a block, of which one in ten has a bit of its front changed.
pub fn with_other_front(random: &mut Random, block: Bytes) -> Vec<u8> {
    let mut bytes = block.into_vec();
    if random.one_of(10) {
        if let Some(byte) = bytes.get_mut(random.below(100) as usize) {
            *byte ^= 1;
        }
    }
    bytes
}

// Takes a block at random, and tells whether it is answered alike.
fn take_next(
    alloc: Global,
    random: &mut Random,
    books: &Books,
    pair: &mut Pair,
    nonces: &mut Vec<u8>,
) -> Result<bool, Failed> {
    let bytes = block_at_random(alloc, random, &books.signing, pair.world(), nonces)?;
    Ok(pair.take(alloc, &bytes, &books.verifying)?)
}

// 1 to 4 blocks.
fn take_at_random(
    alloc: Global,
    random: &mut Random,
    books: &Books,
    pair: &mut Pair,
    nonces: &mut Vec<u8>,
) -> Result<(), Failed> {
    let mut are_alike = true;
    for _ in 0..=random.below(4) {
        are_alike = take_next(alloc, random, books, pair, nonces)? && are_alike;
    }
    check(are_alike)
}

fn check_namespace(alloc: Global, pair: &Pair, namespace: &str) -> Result<(), Failed> {
    for at in keys() {
        check(pair.is_alike_at(alloc, namespace.as_bytes(), at)?)?;
    }
    Ok(())
}

fn check_keys(alloc: Global, pair: &Pair) -> Result<(), Failed> {
    for namespace in namespaces() {
        check_namespace(alloc, pair, namespace)?;
    }
    Ok(())
}

/// Wants the same at each key, of each id that was drawn, and of each block.
pub fn check_alike(alloc: Global, pair: &Pair, ids: &[TxId], nonces: &[u8]) -> Result<(), Failed> {
    check_keys(alloc, pair)?;
    check(are_uses_alike(pair, ids, nonces) && pair.has_same_blocks())
}

fn push_ids(alloc: Global, ids: &mut Vec<TxId>, nonce: u8) -> Result<(), AllocError> {
    let nonce = format!(in alloc; "n{nonce}")?;
    ids.push(tx_id(nonce.as_bytes(), CREATOR))?;
    ids.push(tx_id(nonce.as_bytes(), FORGER))?;
    Ok(())
}

/// By each nonce, and one that is never drawn, the ids of both creators.
pub fn all_ids(alloc: Global) -> Result<Vec<TxId>, AllocError> {
    let mut ids = Vec::new(alloc);
    for nonce in 0..=NONCES {
        push_ids(alloc, &mut ids, nonce)?;
    }
    Ok(ids)
}

fn are_uses_alike(pair: &Pair, ids: &[TxId], nonces: &[u8]) -> bool {
    for nonce in nonces {
        let first = *nonce as usize * 2;
        for id in ids.iter().skip(first).take(2) {
            if !pair.is_alike_of(id) {
                return false;
            }
        }
    }
    true
}

fn check_pair(
    alloc: Global,
    random: &mut Random,
    books: &Books,
    ids: &[TxId],
    pair: &mut Pair,
) -> Result<(), Failed> {
    let mut nonces = Vec::from_slice(alloc, &[NONCES])?;
    take_at_random(alloc, random, books, pair, &mut nonces)?;
    check_alike(alloc, pair, ids, &nonces)
}

// Wants a chain of this seed answered alike.
fn check_chain(
    alloc: Global,
    seed: u64,
    books: &Books,
    ids: &[TxId],
    given: &mut [u32; 26],
) -> Result<(), Failed> {
    let mut random = Random::new(seed);
    let mut pair = Pair::open(alloc)?;
    let checked = check_pair(alloc, &mut random, books, ids, &mut pair);
    add(given, pair.given());
    checked
}

/// Adds counts.
pub fn add(all: &mut [u32], given: &[u32]) {
    for (sum, count) in all.iter_mut().zip(given) {
        *sum = sum.saturating_add(*count);
    }
}

// The numbers of all flags.
static FLAGS: [u8; 11] = [0, 2, 4, 8, 9, 10, 11, 12, 14, 22, 25];

fn is_each_given(given: &[u32; 26]) -> bool {
    for number in &FLAGS {
        if given[(*number % 26) as usize] < 20 {
            return false;
        }
    }
    true
}

fn check_seeds(
    alloc: Global,
    seeds: Range<u64>,
    books: &Books,
    ids: &[TxId],
) -> Result<(), Failed> {
    let mut given = [0; 26];
    for seed in seeds {
        numbered(seed, check_chain(alloc, seed, books, ids, &mut given))?;
    }
    named("20 of each flag", check(is_each_given(&given)))
}

fn check_by(alloc: Global, seeds: Range<u64>, books: &Books) -> Result<(), Failed> {
    let ids = all_ids(alloc)?;
    check_seeds(alloc, seeds, books, &ids)
}

// Wants the chains of these seeds answered alike, and each flag given often. A chain that isn't is told by its seed.
fn check_chains(alloc: Global, seeds: Range<u64>) -> Result<(), Failed> {
    let books = read_books(alloc)?;
    check_by(alloc, seeds, &books)
}

#[test]
fn chains_at_random(rt: HostRuntime) -> Result<(), Failed> {
    check_chains(rt.alloc(), 1..501)
}

#[test]
fn more_chains_at_random(rt: HostRuntime) -> Result<(), Failed> {
    check_chains(rt.alloc(), 501..1001)
}
