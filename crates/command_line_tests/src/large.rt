//! Blocks that are made in a test, since they are large.

use std::alloc::{AllocError, Global};

// SHA-256 of no bytes (FIPS 180-4).
const NO_DATA: [u8; 32] = [
    0xe3, 0xb0, 0xc4, 0x42, 0x98, 0xfc, 0x1c, 0x14, 0x9a, 0xfb, 0xf4, 0xc8, 0x99, 0x6f, 0xb9, 0x24,
    0x27, 0xae, 0x41, 0xe4, 0x64, 0x9b, 0x93, 0x4c, 0xa4, 0x95, 0x99, 0x1b, 0x78, 0x52, 0xb8, 0x55,
];

// SHA-256 of 1,048,576 bytes of zero.
const LONGEST_DATA: [u8; 32] = [
    0x30, 0xe1, 0x49, 0x55, 0xeb, 0xf1, 0x35, 0x22, 0x66, 0xdc, 0x2f, 0xf8, 0x06, 0x7e, 0x68, 0x10,
    0x46, 0x07, 0xe7, 0x50, 0xab, 0xb9, 0xd3, 0xb3, 0x65, 0x82, 0xb8, 0xaf, 0x90, 0x9f, 0xcb, 0x58,
];

// A block 0 with so many transactions, whose lengths and bytes are these.
fn block(
    alloc: Global,
    data_hash: &[u8; 32],
    count: u32,
    txs: &[u8],
) -> Result<Vec<u8>, AllocError> {
    joined(
        alloc,
        &[
            b"FBK1\0\0\0\0\0\0\0\0\0",
            data_hash,
            &count.to_be_bytes(),
            txs,
        ],
    )
}

fn joined(alloc: Global, parts: &[&[u8]]) -> Result<Vec<u8>, AllocError> {
    parts.concat(alloc)
}

/// A block 0 with so many transactions without bytes.
pub(crate) fn block_of_empty(alloc: Global, count: u32) -> Result<Vec<u8>, AllocError> {
    let txs = b"\0\0\0\0".repeat(alloc, count as usize)?;
    block(alloc, &NO_DATA, count, &txs)
}

fn zeros(alloc: Global, length: u32) -> Result<Vec<u8>, AllocError> {
    vec![in alloc; 0; length as usize]
}

/// A block 0 with one transaction of so many bytes of zero.
pub(crate) fn block_of_one(alloc: Global, length: u32) -> Result<Vec<u8>, AllocError> {
    let zeros = zeros(alloc, length)?;
    let tx = joined(alloc, &[&length.to_be_bytes(), &zeros])?;
    block(alloc, &LONGEST_DATA, 1, &tx)
}
