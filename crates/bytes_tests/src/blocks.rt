use crate::fields::with_field;
use block::{Block, BlockFault, BlockVersion, Header, Previous, decode_block, encode_block};
use std::alloc::{AllocError, Global};
use transaction::EncodeFault;
use values::{Bytes, Items, Slice};

// SHA-256 of no bytes (FIPS 180-4).
const NO_DATA: [u8; 32] = [
    0xe3, 0xb0, 0xc4, 0x42, 0x98, 0xfc, 0x1c, 0x14, 0x9a, 0xfb, 0xf4, 0xc8, 0x99, 0x6f, 0xb9, 0x24,
    0x27, 0xae, 0x41, 0xe4, 0x64, 0x9b, 0x93, 0x4c, 0xa4, 0x95, 0x99, 0x1b, 0x78, 0x52, 0xb8, 0x55,
];

// The empty block 0: magic, number, no previous hash, data hash, no transactions.
const EMPTY: &[u8; 49] = b"FBK1\0\0\0\0\0\0\0\0\0\
    \xe3\xb0\xc4\x42\x98\xfc\x1c\x14\x9a\xfb\xf4\xc8\x99\x6f\xb9\x24\
    \x27\xae\x41\xe4\x64\x9b\x93\x4c\xa4\x95\x99\x1b\x78\x52\xb8\x55\
    \0\0\0\0";

// Three transactions: two bytes, none, one.
const THREE: &[u8] = b"FBK1\xff\xfe\xfd\xfc\xfb\xfa\xf9\xf8\x20\
    \x07\x07\x07\x07\x07\x07\x07\x07\x07\x07\x07\x07\x07\x07\x07\x07\x07\x07\x07\x07\x07\x07\x07\x07\x07\x07\x07\x07\x07\x07\x07\x07\
    \x09\x09\x09\x09\x09\x09\x09\x09\x09\x09\x09\x09\x09\x09\x09\x09\x09\x09\x09\x09\x09\x09\x09\x09\x09\x09\x09\x09\x09\x09\x09\x09\
    \0\0\0\x03\0\0\0\x02ab\0\0\0\0\0\0\0\x01c";

const THREE_OF_VERSION_2: &[u8] = b"FBK2\xff\xfe\xfd\xfc\xfb\xfa\xf9\xf8\x20\
    \x07\x07\x07\x07\x07\x07\x07\x07\x07\x07\x07\x07\x07\x07\x07\x07\x07\x07\x07\x07\x07\x07\x07\x07\x07\x07\x07\x07\x07\x07\x07\x07\
    \x09\x09\x09\x09\x09\x09\x09\x09\x09\x09\x09\x09\x09\x09\x09\x09\x09\x09\x09\x09\x09\x09\x09\x09\x09\x09\x09\x09\x09\x09\x09\x09\
    \0\0\0\x03\0\0\0\x02ab\0\0\0\0\0\0\0\x01c";

// What a block's bytes encode.
struct Row {
    bytes: &'static [u8],
    version: BlockVersion,
    header: Header,
    txs: &'static [&'static [u8]],
}

fn rows() -> &'static [Row] {
    &ROWS
}

static ROWS: [Row; 3] = [
    Row {
        bytes: EMPTY,
        version: BlockVersion::V1,
        header: Header {
            number: 0,
            previous: Previous::Empty,
            data_hash: NO_DATA,
        },
        txs: &[],
    },
    Row {
        bytes: THREE,
        version: BlockVersion::V1,
        header: Header {
            number: 0xfffe_fdfc_fbfa_f9f8,
            previous: Previous::Hash([7; 32]),
            data_hash: [9; 32],
        },
        txs: &[b"ab", b"", b"c"],
    },
    Row {
        bytes: THREE_OF_VERSION_2,
        version: BlockVersion::V2,
        header: Header {
            number: 0xfffe_fdfc_fbfa_f9f8,
            previous: Previous::Hash([7; 32]),
            data_hash: [9; 32],
        },
        txs: &[b"ab", b"", b"c"],
    },
];

fn is_spelled(alloc: Global, block: &Block<'_>, bytes: &[u8]) -> bool {
    match encode_block(alloc, block) {
        Ok(written) => written.as_slice() == bytes,
        Err(_) => false,
    }
}

fn are_txs(read: &[Slice<'_>], txs: &[&[u8]]) -> bool {
    for (tx, bytes) in read.iter().zip(txs) {
        if tx.as_slice() != *bytes {
            return false;
        }
    }
    read.len() == txs.len()
}

fn says(block: &Block<'_>, row: &Row) -> bool {
    block.version == row.version
        && block.header == row.header
        && are_txs(block.txs.as_slice(), row.txs)
}

// Whether the bytes are read as what they encode, and that is written as the bytes.
fn is_both_ways(alloc: Global, row: &Row) -> bool {
    match decode_block(alloc, row.bytes) {
        Ok(block) => says(&block, row) && is_spelled(alloc, &block, row.bytes),
        Err(_) => false,
    }
}

#[test]
fn blocks_both_ways(rt: HostRuntime) {
    for (number, row) in rows().iter().enumerate() {
        assert!(rt; is_both_ways(rt.alloc(), row), "row {number}");
    }
}

fn fault_of(alloc: Global, bytes: &[u8]) -> Option<BlockFault> {
    decode_block(alloc, bytes).err()
}

fn fault_when_cut(len: usize) -> BlockFault {
    if len < 4 {
        BlockFault::BadMagic
    } else {
        BlockFault::Truncated
    }
}

// The first length to which the empty block is cut that has another fault than it should.
fn first_unlike_cut(alloc: Global, whole: &[u8]) -> Option<usize> {
    for len in 0..whole.len() {
        let bytes = whole.get(..len).unwrap_or_default();
        if fault_of(alloc, bytes) != Some(fault_when_cut(len)) {
            return Some(len);
        }
    }
    None
}

fn faults() -> &'static [(usize, &'static [u8], BlockFault)] {
    &FAULTS
}

// How much of the empty block is kept, what follows it, and the first fault.
static FAULTS: [(usize, &[u8], BlockFault); 17] = [
    // The magic.
    (0, b"FBK3", BlockFault::BadMagic),
    (0, b"FBK", BlockFault::BadMagic),
    (0, b"fbk2", BlockFault::BadMagic),
    (0, b"FBK2", BlockFault::Truncated),
    // The length of the previous hash.
    (0, b"FBK2\0\0\0\0\0\0\0\0\x01", BlockFault::PreviousLength),
    (0, b"FBK1\0\0\0\0\0\0\0\0\x01", BlockFault::PreviousLength),
    (0, b"FBK1\0\0\0\0\0\0\0\0\x20", BlockFault::Truncated),
    // The number of transactions.
    (45, b"\xff\xff\xff\xff", BlockFault::TooManyTxs),
    (45, b"\0\0\x10\x01", BlockFault::TooManyTxs),
    (45, b"\0\0\x10\0", BlockFault::Truncated),
    // Transactions.
    (45, b"\0\0\0\x01\0\x10\0\x01", BlockFault::TxTooLong),
    (45, b"\0\0\0\x01\0\x10\0\0", BlockFault::Truncated),
    (45, b"\0\0\0\x01\xff\xff\xff\xff", BlockFault::TxTooLong),
    (
        45,
        b"\0\0\0\x02\0\0\0\x01a\0\x10\0\x01",
        BlockFault::TxTooLong,
    ),
    (45, b"\0\0\0\x02\0\0\0\x01a\0\0\0", BlockFault::Truncated),
    (45, b"\0\0\0\x01\0\0\0\x01ab", BlockFault::TrailingBytes),
    (49, b"\0", BlockFault::TrailingBytes),
];

fn fault_behind(
    alloc: Global,
    kept: usize,
    behind: &[u8],
) -> Result<Option<BlockFault>, AllocError> {
    let bytes = with_field(alloc, EMPTY, kept, EMPTY.len(), behind)?;
    Ok(fault_of(alloc, &bytes))
}

#[test]
fn the_first_fault(rt: HostRuntime) -> Result<(), AllocError> {
    assert!(rt; first_unlike_cut(rt.alloc(), EMPTY) == None);
    for &(kept, behind, fault) in faults() {
        assert!(rt;
            fault_behind(rt.alloc(), kept, behind)? == Some(fault),
            "{behind:?}"
        );
    }
    Ok(())
}

// Transactions without bytes, and one more after them.
fn txs_of<'a>(alloc: Global, empty: usize, last: &'a [u8]) -> Result<Items<Slice<'a>>, AllocError> {
    let mut txs = Items::new(alloc);
    for _ in 0..empty {
        txs.push(Slice::new(&[]))?;
    }
    txs.push(Slice::new(last))?;
    Ok(txs)
}

fn block_of(txs: Items<Slice<'_>>) -> Block<'_> {
    Block {
        version: BlockVersion::V1,
        header: Header {
            number: 1,
            previous: Previous::Hash([1; 32]),
            data_hash: [2; 32],
        },
        txs,
    }
}

fn encoded(alloc: Global, empty: usize, last: &[u8]) -> Result<Bytes, EncodeFault> {
    let block = block_of(txs_of(alloc, empty, last)?);
    encode_block(alloc, &block)
}

fn tx_count(alloc: Global, bytes: &[u8]) -> Option<usize> {
    match decode_block(alloc, bytes) {
        Ok(block) => Some(block.txs.len()),
        Err(_) => None,
    }
}

// How many bytes are written, and how many transactions are read from them.
type Written = Result<(usize, Option<usize>), EncodeFault>;

fn written(alloc: Global, empty: usize, last: usize) -> Written {
    let zeros = vec![in alloc; 0; last]?;
    let bytes = encoded(alloc, empty, &zeros)?;
    Ok((bytes.len(), tx_count(alloc, bytes.as_slice())))
}

fn sizes() -> &'static [(usize, usize, Written)] {
    &SIZES
}

// How many transactions have no bytes, and how many the one after them has: all at their limits, and each one past it.
static SIZES: [(usize, usize, Written); 3] = [
    (4095, 1_048_576, Ok((81 + 4 * 4096 + 1_048_576, Some(4096)))),
    (4096, 0, Err(EncodeFault::TooLarge)),
    (0, 1_048_577, Err(EncodeFault::TooLarge)),
];

#[test]
fn at_the_limits_and_one_past_them(rt: HostRuntime) {
    for &(empty, last, wanted) in sizes() {
        assert!(rt;
            written(rt.alloc(), empty, last) == wanted,
            "{empty} and {last}"
        );
    }
}
