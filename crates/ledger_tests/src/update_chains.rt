//! Chains at random with many updates, which the ledger takes as they are to be taken; beside them the same blocks over a channel
//! in which nobody may update, so that it shows which flags the updates change.

use crate::alike::Pair;
use crate::fixture::{named, numbered};
use crate::forgers::{Books, read_books};
use crate::plain_peer::PlainPeer;
use crate::random_chains::{add, all_ids, check_alike, with_other_front};
use crate::random_scripts::{NONCES, namespaces};
use crate::random_updates::{Next, script_with_updates};
use crate::scripted::next_block;
use block::{Block, BlockVersion, decode_block};
use key_book::KeyBook;
use policy_eval::Verify;
use rules::Flag;
use std::alloc::Global;
use std::ops::Range;
use test_support::{Failed, Random, check};
use transaction::TxId;
use values::Bytes;
use world::World;

const ADMIN: &str = "admin 'Org1.peer'\n";

/// A peer that is handed these blocks, in whose channel nobody may update.
#[derive(Drop)]
struct Unchanged {
    plain: PlainPeer,
    // whether a transaction was flagged otherwise
    is_other: bool,
}

// An update that is alone has this flag where nobody may update, and one that is valid another one: it isn't a later one.
fn are_other(flags: &[Flag], unchanged: &[Flag]) -> bool {
    for (flag, other) in flags.iter().zip(unchanged) {
        if *other != Flag::InvalidConfigTransaction && flag != other {
            return true;
        }
    }
    false
}

impl Unchanged {
    fn open(alloc: Global) -> Result<Unchanged, Failed> {
        let plain = PlainPeer::open(alloc, "")?;
        Ok(Unchanged {
            plain,
            is_other: false,
        })
    }

    fn take_block<V: Verify>(
        &mut self,
        alloc: Global,
        block: &Block<'_>,
        verifier: &V,
        flags: &[Flag],
    ) -> Result<(), Failed> {
        let unchanged = self.plain.flags_of(alloc, block, verifier)?;
        self.is_other = are_other(flags, unchanged.as_slice());
        Ok(())
    }

    // Takes a block that has these flags where updates may be, until one shows what they change.
    fn take<V: Verify>(
        &mut self,
        alloc: Global,
        bytes: &[u8],
        verifier: &V,
        flags: &[Flag],
    ) -> Result<(), Failed> {
        if self.is_other {
            return Ok(());
        }
        let block = decode_block(alloc, bytes)?;
        self.take_block(alloc, &block, verifier, flags)
    }
}

// Seldom an older one than the last block's.
fn version_at_random(random: &mut Random, world: &World) -> BlockVersion {
    let is_old = match world.version() {
        BlockVersion::V1 => random.one_of(6),
        BlockVersion::V2 => random.one_of(16),
    };
    if is_old {
        BlockVersion::V1
    } else {
        BlockVersion::V2
    }
}

fn drafted_at_random(
    alloc: Global,
    random: &mut Random,
    keys: &KeyBook,
    world: &World,
    nonces: &mut Vec<u8>,
) -> Result<Bytes, Failed> {
    let version = version_at_random(random, world);
    // blocks of updates and of transactions in turn
    let is_of_updates = world.height() % 2 == 0;
    let next = Next {
        keys,
        version,
        world,
    };
    let script = script_with_updates(alloc, random, next, nonces, is_of_updates)?;
    next_block(alloc, keys, version, world, script.as_str())
}

fn block_at_random(
    alloc: Global,
    random: &mut Random,
    keys: &KeyBook,
    world: &World,
    nonces: &mut Vec<u8>,
) -> Result<Vec<u8>, Failed> {
    let block = drafted_at_random(alloc, random, keys, world, nonces)?;
    Ok(with_other_front(random, block))
}

fn are_definitions_alike(alloc: Global, pair: &Pair) -> Result<bool, Failed> {
    for chaincode in namespaces() {
        if !pair.is_alike_in(alloc, chaincode.as_bytes())? {
            return Ok(false);
        }
    }
    Ok(true)
}

// Whether the block is answered alike, which is taken too where nobody may update if it is accepted.
fn take(
    alloc: Global,
    books: &Books,
    pair: &mut Pair,
    unchanged: &mut Unchanged,
    bytes: &[u8],
) -> Result<bool, Failed> {
    let height = pair.world().height();
    let is_alike = pair.take(alloc, bytes, &books.verifying)?;
    if pair.world().height() > height {
        unchanged.take(alloc, bytes, &books.verifying, pair.last_flags())?;
    }
    Ok(is_alike)
}

fn take_at_random(
    alloc: Global,
    random: &mut Random,
    books: &Books,
    pair: &mut Pair,
    unchanged: &mut Unchanged,
    nonces: &mut Vec<u8>,
) -> Result<bool, Failed> {
    let bytes = block_at_random(alloc, random, &books.signing, pair.world(), nonces)?;
    take(alloc, books, pair, unchanged, &bytes)
}

// 6 to 8 blocks, of which some are refused; each is to be answered alike and to leave the same definitions.
fn take_all(
    alloc: Global,
    random: &mut Random,
    books: &Books,
    pair: &mut Pair,
    unchanged: &mut Unchanged,
    nonces: &mut Vec<u8>,
) -> Result<(), Failed> {
    let mut are_alike = true;
    for _ in 0..random.below(3) + 6 {
        are_alike = take_at_random(alloc, random, books, pair, unchanged, nonces)? && are_alike;
        are_alike = are_definitions_alike(alloc, pair)? && are_alike;
    }
    check(are_alike)
}

fn check_pair(
    alloc: Global,
    random: &mut Random,
    books: &Books,
    ids: &[TxId],
    pair: &mut Pair,
    unchanged: &mut Unchanged,
) -> Result<(), Failed> {
    let mut nonces = Vec::from_slice(alloc, &[NONCES])?;
    take_all(alloc, random, books, pair, unchanged, &mut nonces)?;
    check_alike(alloc, pair, ids, &nonces)
}

/// What came in chains.
#[derive(Clone, Copy)]
struct Came {
    /// How often each cause of an update that isn't valid was told.
    faults: [u32; 5],
    /// In how many chains updates changed the flag of a transaction.
    changing: u32,
}

// One chain in ten has no admin.
fn line_of(seed: u64) -> &'static str {
    if seed % 10 == 0 { "" } else { ADMIN }
}

fn check_beside(
    alloc: Global,
    seed: u64,
    books: &Books,
    ids: &[TxId],
    pair: &mut Pair,
    came: &mut Came,
) -> Result<(), Failed> {
    let mut random = Random::new(seed);
    let mut unchanged = Unchanged::open(alloc)?;
    let checked = check_pair(alloc, &mut random, books, ids, pair, &mut unchanged);
    came.changing = came.changing.saturating_add(u32::from(unchanged.is_other));
    checked
}

// Wants a chain of this seed answered alike.
fn check_chain(
    alloc: Global,
    seed: u64,
    books: &Books,
    ids: &[TxId],
    came: &mut Came,
) -> Result<(), Failed> {
    let mut pair = Pair::of(alloc, line_of(seed))?;
    let checked = check_beside(alloc, seed, books, ids, &mut pair, came);
    add(&mut came.faults, pair.faults());
    checked
}

// By half of the chains.
fn is_each_there(came: &Came) -> bool {
    came.faults.iter().all(|times| *times >= 50) && came.changing >= 100
}

fn check_seeds(
    alloc: Global,
    seeds: Range<u64>,
    books: &Books,
    ids: &[TxId],
) -> Result<(), Failed> {
    let mut came = Came {
        faults: [0; 5],
        changing: 0,
    };
    for seed in seeds {
        numbered(seed, check_chain(alloc, seed, books, ids, &mut came))?;
    }
    named(
        "50 of each cause, and 100 changing chains",
        check(is_each_there(&came)),
    )
}

fn check_by(alloc: Global, seeds: Range<u64>, books: &Books) -> Result<(), Failed> {
    let ids = all_ids(alloc)?;
    check_seeds(alloc, seeds, books, &ids)
}

// Wants the chains of these seeds answered alike, and each cause and each change to come often. A chain that isn't is told by its seed.
fn check_chains(alloc: Global, seeds: Range<u64>) -> Result<(), Failed> {
    let books = read_books(alloc)?;
    check_by(alloc, seeds, &books)
}

#[test]
fn updates_at_random(rt: HostRuntime) -> Result<(), Failed> {
    check_chains(rt.alloc(), 1..301)
}

#[test]
fn more_updates_at_random(rt: HostRuntime) -> Result<(), Failed> {
    check_chains(rt.alloc(), 301..601)
}
