//! What comments report of transactions that no lines state.

use crate::fixture::{book, drafted};
use crate::shown::{shown, shows};
use block::{Block, BlockVersion, Header, Previous, decode_block, encode_block};
use header_hash::data_hash;
use key_book::KeyBook;
use std::alloc::Global;
use test_support::Failed;
use text_lines::text_of;
use values::{Bytes, Items, Slice};

const SCRIPT: &str = "tx Org1:client:c0 n0 cc
ns cc
write k v
endorse Org1:peer:p0
";

/// A byte that is another one, found by its place from the front or from the end, and the comments for it.
#[derive(Clone, Copy)]
struct Changed {
    is_from_end: bool,
    place: usize,
    comments: &'static [&'static str],
}

fn changes() -> &'static [Changed] {
    &CHANGES
}

// As vectors/showing.py has them.
static CHANGES: [Changed; 6] = [
    // in the channel's name
    Changed {
        is_from_end: false,
        place: 1,
        comments: &[
            "# raw, for it is of channel bh",
            "# raw, for the endorser Org1:peer:p0 has another signature than by the key book",
            "# raw, for the creator Org1:client:c0 has another signature than by the key book",
        ],
    },
    // in the id
    Changed {
        is_from_end: false,
        place: 3,
        comments: &[
            "# raw, for its nonce and creator give the id 459475528dc038f899a89dddf066c78d533138cdcf2fd4efe1a99d8c9cadfaed",
            "# raw, for the endorser Org1:peer:p0 has another signature than by the key book",
            "# raw, for the creator Org1:client:c0 has another signature than by the key book",
        ],
    },
    // in the creator's label
    Changed {
        is_from_end: false,
        place: 75,
        comments: &[
            "# raw, for its nonce and creator give the id 681eba8392b9f14627468ce471c7c8e3eb7cb7bfbd6e6de0b84b186fe334757d",
            "# raw, for the endorser Org1:peer:p0 has another signature than by the key book",
            "# raw, for the creator Org1:client:c1 isn't in the key book",
        ],
    },
    // in the creator's signature
    Changed {
        is_from_end: true,
        place: 1,
        comments: &[
            "# raw, for the creator Org1:client:c0 has another signature than by the key book",
        ],
    },
    // in the endorser's signature
    Changed {
        is_from_end: true,
        place: 35,
        comments: &[
            "# raw, for the endorser Org1:peer:p0 has another signature than by the key book",
            "# raw, for the creator Org1:client:c0 has another signature than by the key book",
        ],
    },
    // in the length of the channel's name: then it is no transaction, and nothing more is reported
    Changed {
        is_from_end: false,
        place: 0,
        comments: &[],
    },
];

// The block of only these transactions.
fn block_of(alloc: Global, tx: &[u8]) -> Result<Bytes, Failed> {
    let mut txs = Items::new(alloc);
    txs.push(Slice::new(tx))?;
    let header = Header {
        number: 0,
        previous: Previous::Empty,
        data_hash: data_hash(txs.as_slice()),
    };
    let block = Block {
        version: BlockVersion::V2,
        header,
        txs,
    };
    Ok(encode_block(alloc, &block)?)
}

fn change(bytes: &mut [u8], changed: &Changed) {
    let place = if changed.is_from_end {
        bytes.len().saturating_sub(changed.place)
    } else {
        changed.place
    };
    if let Some(byte) = bytes.get_mut(place) {
        *byte ^= 1;
    }
}

// Whether these are all of its comments that state why a line is raw.
fn has_reasons(text: &Bytes, wanted: &[&str]) -> bool {
    let Ok(text) = text_of(text.as_slice()) else {
        return false;
    };
    let mut count = 0;
    for line in text.lines() {
        if line.starts_with("# raw") {
            if wanted.get(count) != Some(&line) {
                return false;
            }
            count += 1;
        }
    }
    count == wanted.len()
}

fn is_told(alloc: Global, keys: &KeyBook, tx: &[u8], comments: &[&str]) -> Result<bool, Failed> {
    let block = block_of(alloc, tx)?;
    shows(alloc, keys, block.as_slice())?;
    Ok(has_reasons(&shown(alloc, Some(keys), block.as_slice())?, comments))
}

fn is_told_of_change(
    alloc: Global,
    keys: &KeyBook,
    tx: &[u8],
    changed: &Changed,
) -> Result<bool, Failed> {
    let mut bytes = Vec::from_slice(alloc, tx)?;
    change(bytes.as_mut_slice(), changed);
    is_told(alloc, keys, bytes.as_slice(), changed.comments)
}

// The place of the first change that isn't reported so.
fn unlike_in(alloc: Global, keys: &KeyBook, block: &[u8]) -> Result<Option<usize>, Failed> {
    let block = decode_block(alloc, block)?;
    let Some(tx) = block.txs.as_slice().first() else {
        return Err(Failed::Missing("a transaction"));
    };
    for changed in changes() {
        if !is_told_of_change(alloc, keys, tx.as_slice(), changed)? {
            return Ok(Some(changed.place));
        }
    }
    Ok(None)
}

fn unlike(alloc: Global) -> Result<Option<usize>, Failed> {
    let keys = book(alloc)?;
    match drafted(alloc, &keys, BlockVersion::V2, None, SCRIPT)? {
        Ok(block) => unlike_in(alloc, &keys, block.as_slice()),
        Err(_line) => Err(Failed::Missing("a block")),
    }
}

#[test]
fn why_no_lines_say_it(rt: HostRuntime) -> Result<(), Failed> {
    let unlike = unlike(rt.alloc())?;
    assert!(rt; unlike.is_none(), "{unlike:?}");
    Ok(())
}
