//! Blocks that were spoiled on their way.

use block::{Block, BlockVersion, Header, decode_block, encode_block};
use header_hash::data_hash;
use std::alloc::{AllocError, Global};
use test_support::{Failed, Random};
use values::Bytes;

// Where the count of transactions stands, behind no previous hash and behind one. The first one's length is next to it.
const COUNTS: [usize; 2] = [45, 77];

fn place(random: &mut Random, len: usize) -> usize {
    let drawn = usize::from(random.below(251))
        .wrapping_mul(251)
        .wrapping_add(usize::from(random.below(251)));
    drawn % len.max(1)
}

// These bytes, of which the one at a place is replaced.
fn replaced(alloc: Global, bytes: &[u8], place: usize, by: u8) -> Result<Vec<u8>, AllocError> {
    let mut copy = Vec::from_slice(alloc, bytes)?;
    if let Some(byte) = copy.get_mut(place) {
        *byte = by;
    }
    Ok(copy)
}

// One bit is another.
fn flipped(alloc: Global, random: &mut Random, bytes: &[u8]) -> Result<Vec<u8>, AllocError> {
    let place = place(random, bytes.len());
    let by = match bytes.get(place) {
        Some(byte) => *byte ^ 1u8.rotate_left(u32::from(random.below(8))),
        None => 0,
    };
    replaced(alloc, bytes, place, by)
}

// Up to eight bytes are gone.
fn cut(alloc: Global, random: &mut Random, bytes: &[u8]) -> Result<Vec<u8>, AllocError> {
    let start = place(random, bytes.len());
    let end = start.saturating_add(usize::from(random.below(8)));
    let front = bytes.get(..start).unwrap_or(bytes);
    let back = bytes.get(end.saturating_add(1)..).unwrap_or(&[]);
    [front, back].concat(alloc)
}

// The count, or the first transaction's length, is another.
fn miscounted(alloc: Global, random: &mut Random, bytes: &[u8]) -> Result<Vec<u8>, AllocError> {
    let count = COUNTS[usize::from(random.below(2)) % 2];
    let place = count.saturating_add(usize::from(random.below(8)));
    let by = match bytes.get(place) {
        Some(byte) => byte.wrapping_add(random.below(255)),
        None => 0,
    };
    replaced(alloc, bytes, place, by)
}

// The data hash is that of the transactions, where there are some.
fn resealed(alloc: Global, bytes: &[u8]) -> Result<Bytes, Failed> {
    let Ok(block) = decode_block(alloc, bytes) else {
        return Ok(Bytes::from_slice(alloc, bytes)?);
    };
    let sealed = Block {
        version: block.version,
        header: Header {
            number: block.header.number,
            previous: block.header.previous,
            data_hash: data_hash(block.txs.as_slice()),
        },
        txs: block.txs,
    };
    spelled(alloc, &sealed)
}

fn spelled(alloc: Global, block: &Block<'_>) -> Result<Bytes, Failed> {
    match encode_block(alloc, block) {
        Ok(bytes) => Ok(bytes),
        Err(_) => Err(Failed::Missing("a spelling")),
    }
}

// A bit, some bytes, a count or a length are others.
fn changed(alloc: Global, random: &mut Random, bytes: &[u8]) -> Result<Vec<u8>, AllocError> {
    match random.below(3) {
        0 => flipped(alloc, random, bytes),
        1 => cut(alloc, random, bytes),
        _ => miscounted(alloc, random, bytes),
    }
}

// The block as one of the other version.
fn of_other_version(alloc: Global, bytes: &[u8]) -> Result<Bytes, Failed> {
    let Ok(block) = decode_block(alloc, bytes) else {
        return Ok(Bytes::from_slice(alloc, bytes)?);
    };
    let other = Block {
        version: match block.version {
            BlockVersion::V1 => BlockVersion::V2,
            BlockVersion::V2 => BlockVersion::V1,
        },
        header: block.header,
        txs: block.txs,
    };
    spelled(alloc, &other)
}

/// These bytes changed in some place, or another block in their place. Some are a block that is linked still, with a spoiled
/// transaction.
pub fn spoiled(
    alloc: Global,
    random: &mut Random,
    bytes: &[u8],
    other: &[u8],
) -> Result<Bytes, Failed> {
    match random.below(16) {
        0 => resealed(alloc, flipped(alloc, random, bytes)?.as_slice()),
        1..=3 => Ok(Bytes::from_slice(alloc, other)?),
        4 | 5 => of_other_version(alloc, bytes),
        _ => Ok(Bytes::from_vec(changed(alloc, random, bytes)?)),
    }
}
