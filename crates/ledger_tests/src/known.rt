//! Blocks whose numbers were accepted: a twin or a fork is what the ledger of that height would have accepted, and no
//! other block is.

use crate::fixture::{ledger_with, read_keys, submitted};
use crate::refusals::flip;
use crate::scripted::next_block;
use block::{Block, BlockVersion, decode_block};
use header_hash::header_hash;
use key_book::KeyBook;
use known_blocks::{Known, KnownAs, how_known};
use ledger::Ledger;
use rules::CommittedBlock;
use std::alloc::{AllocError, Global};
use test_support::{Failed, check};
use values::{Bytes, Items};
use world::World;

// Of the number, twice of the previous hash, of the data hash. In block 0, whose previous hash is empty, the second and
// the third are of the data hash, and the fourth is after its end.
const PLACES: [usize; 4] = [11, 13, 44, 70];

fn scripts() -> &'static [(BlockVersion, &'static str)] {
    &SCRIPTS
}

// The accepted blocks. In the second, `raw 010203` has the bytes of both.
static SCRIPTS: [(BlockVersion, &str); 3] = [
    (BlockVersion::V1, "raw 01\n"),
    (BlockVersion::V2, "raw 0102\nraw 03\n"),
    (BlockVersion::V2, ""),
];

fn others() -> &'static [&'static str] {
    &OTHERS
}

static OTHERS: [&str; 5] = [
    "raw 01\n",
    "raw 0102\nraw 03\n",
    "",
    "raw 010203\n",
    "raw 04\n",
];

fn add_next(
    alloc: Global,
    keys: &KeyBook,
    ledger: &mut Ledger,
    blocks: &mut Items<Bytes>,
    version: BlockVersion,
    script: &str,
) -> Result<(), Failed> {
    let bytes = next_block(alloc, keys, version, ledger.view(), script)?;
    check(submitted(ledger, bytes.as_slice(), keys).is_ok())?;
    Ok(blocks.push(bytes)?)
}

fn add_all(
    alloc: Global,
    keys: &KeyBook,
    ledger: &mut Ledger,
    blocks: &mut Items<Bytes>,
) -> Result<(), Failed> {
    for (version, script) in scripts() {
        add_next(alloc, keys, ledger, blocks, *version, script)?;
    }
    Ok(())
}

fn submit_first(
    keys: &KeyBook,
    ledger: &mut Ledger,
    blocks: &[Bytes],
    number: u64,
) -> Result<(), Failed> {
    for bytes in blocks.iter().take(number as usize) {
        check(submitted(ledger, bytes.as_slice(), keys).is_ok())?;
    }
    Ok(())
}

// The ledger of the blocks before a number.
fn ledger_before(
    alloc: Global,
    keys: &KeyBook,
    blocks: &[Bytes],
    number: u64,
) -> Result<Ledger, Failed> {
    let mut ledger = ledger_with(alloc, "")?;
    submit_first(keys, &mut ledger, blocks, number)?;
    Ok(ledger)
}

// What is wanted of a block beside the accepted one, by what the ledger before does with it.
fn wanted(keys: &KeyBook, before: &mut Ledger, accepted: &CommittedBlock, bytes: &[u8]) -> KnownAs {
    if accepted.bytes.get().as_slice() == bytes {
        return KnownAs::Same;
    }
    match submitted(before, bytes, keys) {
        Err(_) => KnownAs::Other,
        Ok(answer) if answer.header_hash == accepted.header_hash => KnownAs::Twin,
        Ok(_) => KnownAs::Fork,
    }
}

fn is_wanted(
    alloc: Global,
    keys: &KeyBook,
    blocks: &[Bytes],
    accepted: &CommittedBlock,
    bytes: &[u8],
    known: &Known,
) -> Result<bool, Failed> {
    let mut before = ledger_before(alloc, keys, blocks, known.number)?;
    Ok(
        known.how == wanted(keys, &mut before, accepted, bytes)
            && known.accepted == accepted.header_hash,
    )
}

/// How many blocks of each kind were there.
#[derive(Clone, Copy, Default)]
struct Counts {
    same: u32,
    twins: u32,
    forks: u32,
    others: u32,
    unknown: u32,
}

impl Counts {
    fn add(&mut self, known: &Option<Known>) {
        match known.map(|known| known.how) {
            Some(KnownAs::Same) => self.same += 1,
            Some(KnownAs::Twin) => self.twins += 1,
            Some(KnownAs::Fork) => self.forks += 1,
            Some(KnownAs::Other) => self.others += 1,
            None => self.unknown += 1,
        }
    }
}

fn check_block(
    alloc: Global,
    keys: &KeyBook,
    blocks: &[Bytes],
    world: &World,
    bytes: &[u8],
    block: &Block<'_>,
    counts: &mut Counts,
) -> Result<(), Failed> {
    let known = how_known(world, bytes, block);
    counts.add(&known);
    let number = block.header.number;
    match (known, world.block(number)) {
        (None, None) => check(number >= world.height()),
        (Some(known), Some(accepted)) => {
            check(known.number == number && known.own == header_hash(&block.header))?;
            check(is_wanted(alloc, keys, blocks, accepted, bytes, &known)?)
        }
        _ => check(false),
    }
}

fn check_bytes(
    alloc: Global,
    keys: &KeyBook,
    blocks: &[Bytes],
    world: &World,
    bytes: &[u8],
    counts: &mut Counts,
) -> Result<(), Failed> {
    let block = decode_block(alloc, bytes)?;
    check_block(alloc, keys, blocks, world, bytes, &block, counts)
}

fn flipped(alloc: Global, bytes: &Bytes, place: usize) -> Result<Bytes, AllocError> {
    let mut bytes = Bytes::from_slice(alloc, bytes.as_slice())?.into_vec();
    flip(bytes.as_mut_slice(), place);
    Ok(Bytes::from_vec(bytes))
}

// The block, and others with a bit flipped.
fn check_all_of(
    alloc: Global,
    keys: &KeyBook,
    blocks: &[Bytes],
    world: &World,
    bytes: &Bytes,
    counts: &mut Counts,
) -> Result<(), Failed> {
    check_bytes(alloc, keys, blocks, world, bytes.as_slice(), counts)?;
    for place in PLACES {
        let other = flipped(alloc, bytes, place)?;
        check_bytes(alloc, keys, blocks, world, other.as_slice(), counts)?;
    }
    Ok(())
}

// Blocks that are drafted behind those before a number.
fn check_number(
    alloc: Global,
    keys: &KeyBook,
    blocks: &[Bytes],
    world: &World,
    number: u64,
    counts: &mut Counts,
) -> Result<(), Failed> {
    let before = ledger_before(alloc, keys, blocks, number)?;
    for script in others() {
        for version in [BlockVersion::V1, BlockVersion::V2] {
            let bytes = next_block(alloc, keys, version, before.view(), script)?;
            check_all_of(alloc, keys, blocks, world, &bytes, counts)?;
        }
    }
    Ok(())
}

fn check_numbers(alloc: Global, keys: &KeyBook) -> Result<Counts, Failed> {
    let (mut ledger, mut blocks) = (ledger_with(alloc, "")?, Items::new(alloc));
    let mut counts = Counts::default();
    add_all(alloc, keys, &mut ledger, &mut blocks)?;
    for number in 0..=3 {
        check_number(
            alloc,
            keys,
            blocks.as_slice(),
            ledger.view(),
            number,
            &mut counts,
        )?;
    }
    Ok(counts)
}

#[test]
fn known_blocks_are_as_ledgers_find_them(rt: HostRuntime) -> Result<(), Failed> {
    let keys = read_keys(rt.alloc(), "")?;
    let counts = check_numbers(rt.alloc(), &keys)?;
    assert!(rt; counts.same == 4 && counts.twins == 5 && counts.forks == 26);
    assert!(rt; counts.others == 115 && counts.unknown == 50);
    Ok(())
}
