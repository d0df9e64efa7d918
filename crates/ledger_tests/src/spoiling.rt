//! Transactions and updates that no script drafts: bytes that spell none, or another channel, id or set under a good signature
//! of the creator. They are drafted first, then changed and signed anew, and stand in the script as they are.

use crate::scripted::drafted;
use block::{BlockVersion, decode_block};
use key_book::KeyBook;
use std::alloc::{AllocError, Global};
use test_support::{Failed, Random};
use transaction::{Identity, Item, decode_item};
use values::Bytes;

// The creator's signature behind its length, at the end.
const SIGNATURE: usize = 34;

/// The bytes of the transaction or update of these lines.
pub fn drafted_tx(alloc: Global, keys: &KeyBook, lines: &str) -> Result<Bytes, Failed> {
    let block = drafted(alloc, keys, BlockVersion::V2, None, lines)?;
    let block = decode_block(alloc, block.as_slice())?;
    match block.txs.as_slice().first() {
        Some(tx) => Ok(tx.copy(alloc)?),
        None => Err(Failed::Missing("a transaction")),
    }
}

// In the channel, in the id, in the creator's signature, or anywhere.
fn place_at_random(random: &mut Random, len: usize) -> usize {
    match random.below(4) {
        0 => 1,
        1 => 10,
        2 => len.saturating_sub(1),
        _ => random.below(250) as usize,
    }
}

fn creator<'s, 'a>(item: &'s Item<'a>) -> &'s Identity<'a> {
    match item {
        Item::Tx(tx) => &tx.creator,
        Item::Update(update) => &update.creator,
    }
}

// What the creator of the transaction, as it was drafted, signs the changed bytes with.
fn signature_anew(
    alloc: Global,
    keys: &KeyBook,
    tx: &Bytes,
    changed: &[u8],
) -> Result<[u8; 32], Failed> {
    let Ok(tx) = decode_item(alloc, BlockVersion::V2, tx.as_slice()) else {
        return Err(Failed::Missing("a transaction"));
    };
    match keys.sign(creator(tx.item()), changed) {
        Some(signature) => Ok(signature),
        None => Err(Failed::Missing("a key")),
    }
}

/// The creator of the transaction or update, as it was drafted, signs the changed bytes before the signature.
pub fn sign_anew(
    alloc: Global,
    keys: &KeyBook,
    tx: &Bytes,
    changed: &mut Vec<u8>,
) -> Result<(), Failed> {
    let signed = changed.len().saturating_sub(SIGNATURE);
    changed.truncate(signed);
    let signature = signature_anew(alloc, keys, tx, changed.as_slice())?;
    changed.extend_from_slice(b"\0\x20")?;
    changed.extend_from_slice(&signature)?;
    Ok(())
}

// One bit is another, and one in five is cut. Where that bit isn't the signature's, the creator has signed it.
fn spoiled(
    alloc: Global,
    random: &mut Random,
    keys: &KeyBook,
    tx: &Bytes,
) -> Result<Vec<u8>, Failed> {
    let mut changed = Vec::from_slice(alloc, tx.as_slice())?;
    let len = changed.len();
    let place = place_at_random(random, len);
    if let Some(byte) = changed.get_mut(place) {
        *byte ^= 1;
    }
    if place < len.saturating_sub(SIGNATURE) {
        sign_anew(alloc, keys, tx, &mut changed)?;
    }
    if random.one_of(5) {
        changed.truncate(random.below(250) as usize);
    }
    Ok(changed)
}

/// The line of a script that has the transaction of these lines spoiled.
pub fn raw_line(
    alloc: Global,
    random: &mut Random,
    keys: &KeyBook,
    lines: &str,
) -> Result<String, Failed> {
    let tx = drafted_tx(alloc, keys, lines)?;
    let bytes = spoiled(alloc, random, keys, &tx)?;
    Ok(raw_line_of(alloc, bytes.as_slice())?)
}

/// The line of a script that has these bytes in the place of a transaction.
pub fn raw_line_of(alloc: Global, bytes: &[u8]) -> Result<String, AllocError> {
    let digits = hex::encode(alloc, bytes)?;
    format!(in alloc; "raw {digits}\n")
}
