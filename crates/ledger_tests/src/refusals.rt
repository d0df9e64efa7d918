//! Refused bytes between the blocks of the chain.

use crate::fixture::Peer;
use crate::shown::shown;
use block::BlockFault;
use chain_vectors::SaysOk;
use chain_vectors::first_blocks::first_blocks;
use rules::Refused;
use std::alloc::{AllocError, Global};
use test_support::{Failed, check};

/// How the bytes of a block are spoilt.
#[derive(Clone, Copy)]
enum Spoilt {
    /// The lowest bit of the byte at this place is flipped.
    Flipped(usize),
    /// So many bytes are left.
    Cut(usize),
    /// There is a byte more.
    Longer,
}

/// Bytes of a block that has a previous hash and a transaction, spoilt, and why they are refused: for their number where nothing is
/// said.
#[derive(Clone, Copy)]
pub struct Change(Spoilt, Option<Refused>);

/// Each change for which bytes are refused.
pub fn changes() -> &'static [Change] {
    &CHANGES
}

const BAD_MAGIC: Option<Refused> = Some(Refused::Malformed(BlockFault::BadMagic));

const BAD_LENGTH: Option<Refused> = Some(Refused::Malformed(BlockFault::PreviousLength));

const TOO_MANY_TXS: Option<Refused> = Some(Refused::Malformed(BlockFault::TooManyTxs));

const TX_TOO_LONG: Option<Refused> = Some(Refused::Malformed(BlockFault::TxTooLong));

const TRUNCATED: Option<Refused> = Some(Refused::Malformed(BlockFault::Truncated));

const TRAILING: Option<Refused> = Some(Refused::Malformed(BlockFault::TrailingBytes));

/// The lowest byte of the number.
pub const NUMBER: usize = 11;

// The header: 4 bytes of magic, 8 of the number, 1, 32 of the previous hash, 32 of the data hash, 4 of the count. Behind it the
// highest bytes of the first transaction's length.
static CHANGES: [Change; 19] = [
    Change(Spoilt::Flipped(0), BAD_MAGIC),
    Change(Spoilt::Flipped(3), BAD_MAGIC),
    Change(Spoilt::Flipped(NUMBER), None),
    Change(Spoilt::Flipped(12), BAD_LENGTH),
    Change(Spoilt::Flipped(13), Some(Refused::WrongPrevious)),
    Change(Spoilt::Flipped(44), Some(Refused::WrongPrevious)),
    Change(Spoilt::Flipped(45), Some(Refused::WrongDataHash)),
    Change(Spoilt::Flipped(76), Some(Refused::WrongDataHash)),
    Change(Spoilt::Flipped(77), TOO_MANY_TXS),
    Change(Spoilt::Flipped(81), TX_TOO_LONG),
    Change(Spoilt::Cut(0), BAD_MAGIC),
    Change(Spoilt::Cut(3), BAD_MAGIC),
    Change(Spoilt::Cut(4), TRUNCATED),
    Change(Spoilt::Cut(12), TRUNCATED),
    Change(Spoilt::Cut(44), TRUNCATED),
    Change(Spoilt::Cut(76), TRUNCATED),
    Change(Spoilt::Cut(80), TRUNCATED),
    Change(Spoilt::Cut(84), TRUNCATED),
    Change(Spoilt::Longer, TRAILING),
];

/// Flips the lowest bit of the byte at a place.
pub fn flip(bytes: &mut [u8], place: usize) {
    if let Some(byte) = bytes.get_mut(place) {
        *byte ^= 1;
    }
}

fn spoil(bytes: &mut Vec<u8>, spoilt: Spoilt) -> Result<(), AllocError> {
    match spoilt {
        Spoilt::Flipped(place) => flip(bytes.as_mut_slice(), place),
        Spoilt::Cut(length) => bytes.truncate(length),
        Spoilt::Longer => bytes.push(0)?,
    }
    Ok(())
}

/// The bytes, spoilt.
pub fn changed(alloc: Global, bytes: &[u8], change: Change) -> Result<Vec<u8>, AllocError> {
    let mut changed = Vec::from_slice(alloc, bytes)?;
    spoil(&mut changed, change.0)?;
    Ok(changed)
}

/// Why they are refused at this height.
pub fn refusal(change: Change, height: u64) -> Refused {
    change.1.unwrap_or(Refused::WrongNumber {
        want: height,
        got: height ^ 1,
    })
}

// Wants the bytes refused so, and the world shown as before.
fn check_refused(
    alloc: Global,
    peer: &mut Peer,
    before: &[u8],
    bytes: &[u8],
    wanted: Refused,
) -> Result<(), Failed> {
    check(peer.refusal_of(bytes, &SaysOk) == Some(wanted))?;
    let behind = shown(alloc, peer.world())?;
    check(behind.as_slice() == before)
}

fn check_change(
    alloc: Global,
    peer: &mut Peer,
    before: &[u8],
    bytes: &[u8],
    change: Change,
) -> Result<(), Failed> {
    let wanted = refusal(change, peer.world().height());
    let bytes = changed(alloc, bytes, change)?;
    check_refused(alloc, peer, before, &bytes, wanted)
}

fn check_each(alloc: Global, peer: &mut Peer, before: &[u8], bytes: &[u8]) -> Result<(), Failed> {
    for change in changes() {
        check_change(alloc, peer, before, bytes, *change)?;
    }
    Ok(())
}

fn check_changed(alloc: Global, peer: &mut Peer, bytes: &[u8]) -> Result<(), Failed> {
    let before = shown(alloc, peer.world())?;
    check_each(alloc, peer, &before, bytes)
}

fn check_numbers(alloc: Global, peer: &mut Peer, before: &[u8]) -> Result<(), Failed> {
    for (number, block) in first_blocks().iter().enumerate() {
        let got = number as u64;
        if got != 4 {
            let wanted = Refused::WrongNumber { want: 4, got };
            check_refused(alloc, peer, before, block.bytes, wanted)?;
        }
    }
    Ok(())
}

// Wants each block refused where block 4 is next.
fn check_other_numbers(alloc: Global, peer: &mut Peer) -> Result<(), Failed> {
    let before = shown(alloc, peer.world())?;
    check_numbers(alloc, peer, &before)
}

/// Before every sixteenth block wants it refused where it is changed, and before block 4 all others of the first ones.
pub fn check_refusals(alloc: Global, peer: &mut Peer, bytes: &[u8]) -> Result<(), Failed> {
    match peer.world().height() {
        4 => check_other_numbers(alloc, peer),
        height if height % 16 == 3 => check_changed(alloc, peer, bytes),
        _ => Ok(()),
    }
}
