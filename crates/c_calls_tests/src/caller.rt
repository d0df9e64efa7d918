//! A caller: the memory that it lends, and how it checks the signatures of a block.

use c_calls::{OK, Receipt, Sizes, fabcommit_height, fabcommit_list, fabcommit_open};
use c_handle::Handle;
use chain_vectors::CHANNEL;
use std::alloc::{AllocError, Global};
use test_support::{Failed, check};
use verdicts::{Piece, Verdict};

pub const NOWHERE: Piece = Piece { at: 0, len: 0 };

const UNCHECKED: Verdict = Verdict {
    org: NOWHERE,
    label: NOWHERE,
    message: NOWHERE,
    signature: NOWHERE,
    role: 0,
    accepted: false,
};

pub const NO_RECEIPT: Receipt = Receipt {
    number: 0,
    got: 0,
    flags: 0,
    header_hash: [0; 32],
    commit_hash: [0; 32],
};

/// Memory for the signatures of a block.
#[derive(Drop)]
pub struct Room {
    pub pool: Vec<u8>,
    pub verdicts: Vec<Verdict>,
}

impl Room {
    pub fn new(alloc: Global, bytes: usize, count: usize) -> Result<Room, AllocError> {
        Ok(Room {
            pool: vec![in alloc; 0; bytes]?,
            verdicts: vec![in alloc; UNCHECKED; count]?,
        })
    }
}

/// The bytes of a piece of a pool.
pub fn piece(pool: &[u8], place: Piece) -> &[u8] {
    match pool.get(place.at..) {
        Some(rest) => rest.get(..place.len).unwrap_or(&[]),
        None => &[],
    }
}

/// A good signature is the bytes `ok`, as in the chain.
fn check_signatures(pool: &[u8], verdicts: &mut [Verdict]) {
    for verdict in verdicts {
        verdict.accepted = piece(pool, verdict.signature) == b"ok".as_slice();
    }
}

/// Lists the signatures of a block and checks them.
pub fn list_checked(alloc: Global, room: &mut Room, block: &[u8]) -> Result<Sizes, Failed> {
    let mut sizes = Sizes {
        pool: 0,
        verdicts: 0,
    };
    let (pool, verdicts) = (room.pool.as_mut_slice(), room.verdicts.as_mut_slice());
    check(fabcommit_list(alloc, block, pool, verdicts, &mut sizes) == OK)?;
    check_signatures(pool, verdicts);
    Ok(sizes)
}

/// Opens the ledger of the chain. The key book has no keys.
pub fn open(alloc: Global, handle: &mut Handle) -> Result<(), Failed> {
    check(fabcommit_open(alloc, handle, CHANNEL.as_bytes(), b"") == OK)
}

/// The height of the ledger.
pub fn height(alloc: Global, handle: &mut Handle) -> Result<u64, Failed> {
    let mut height = 0;
    check(fabcommit_height(alloc, handle, &mut height) == OK)?;
    Ok(height)
}
