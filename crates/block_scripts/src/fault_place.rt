//! Where bytes stop being a block.
use block::MAX_TXS;
use transaction::MAX_TX_BYTES;
use values::HASH_BYTES;

// In bytes.
const MAGIC: usize = 4;

const NUMBER: usize = 8;

// What follows the first `len` bytes, or what is too short to have them.
fn behind(bytes: &[u8], len: usize) -> Result<&[u8], &[u8]> {
    bytes.get(len..).ok_or(bytes)
}

// What follows the previous hash, or the field that can't be read.
fn behind_previous(bytes: &[u8]) -> Result<&[u8], &[u8]> {
    match bytes {
        [0, rest @ ..] => Ok(rest),
        [32, rest @ ..] => behind(rest, HASH_BYTES),
        _ => Err(bytes),
    }
}

// What follows a header, or the field that can't be read.
fn behind_header(bytes: &[u8]) -> Result<&[u8], &[u8]> {
    if !bytes.starts_with(b"FBK1") && !bytes.starts_with(b"FBK2") {
        return Err(bytes);
    }
    let rest = behind(bytes, MAGIC)?;
    let rest = behind(rest, NUMBER)?;
    let rest = behind_previous(rest)?;
    behind(rest, HASH_BYTES)
}

// A count or a length, and what follows it.
fn number(bytes: &[u8], most: usize) -> Result<(usize, &[u8]), &[u8]> {
    let [a, b, c, d, rest @ ..] = bytes else {
        return Err(bytes);
    };
    let number = u32::from_be_bytes([*a, *b, *c, *d]) as usize;
    if number > most {
        return Err(bytes);
    }
    Ok((number, rest))
}

fn behind_tx(bytes: &[u8]) -> Result<&[u8], &[u8]> {
    let (len, rest) = number(bytes, MAX_TX_BYTES)?;
    behind(rest, len)
}

// What follows the last transaction, or the field that can't be read.
fn behind_txs(bytes: &[u8]) -> Result<&[u8], &[u8]> {
    let (count, mut rest) = number(behind_header(bytes)?, MAX_TXS)?;
    for _ in 0..count {
        rest = behind_tx(rest)?;
    }
    Ok(rest)
}

/// The place, from 0, of the field at which bytes stop being a block: the first one that can't be read, or what follows
/// the last transaction. Of a block it is its length. Linear in the number of transactions; takes no memory.
pub fn place_of_fault(bytes: &[u8]) -> usize {
    let rest = match behind_txs(bytes) {
        Ok(rest) | Err(rest) => rest,
    };
    bytes.len().saturating_sub(rest.len())
}
