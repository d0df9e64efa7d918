//! Updates of definitions and items, whose bytes were written by hand from the grammar.

use crate::transactions::beginning;
use std::alloc::Global;
use transaction::{
    BlockVersion, Endorsement, Item, Role, SpelledItem, TxFault, Update, decode_item,
    encode_update, encode_update_body, encode_update_signed,
};

mod faults;
mod limits;
pub mod memory;
mod versions;

// In channel `ch`, `cc` gets the policy `OR('Org2.peer')`. Creator `Org1:admin:a0`, nonce `n2`, one endorsement of the
// creator's.
const EXAMPLE: &[u8; 178] = b"\0\x02ch\
    \x05\x05\x05\x05\x05\x05\x05\x05\x05\x05\x05\x05\x05\x05\x05\x05\x05\x05\x05\x05\x05\x05\x05\x05\x05\x05\x05\x05\x05\x05\x05\x05\
    \x05\x05\x05\x05\x05\x05\x05\x05\x05\x05\x05\x05\x05\x05\x05\x05\x05\x05\x05\x05\x05\x05\x05\x05\x05\x05\x05\x05\x05\x05\x05\x05\
    \x04Org1\0\x02a0\x02n2\x02cc\0\x0fOR('Org2.peer')\
    \x01\x04Org1\0\x02a0\0\x20\
    \x07\x07\x07\x07\x07\x07\x07\x07\x07\x07\x07\x07\x07\x07\x07\x07\x07\x07\x07\x07\x07\x07\x07\x07\x07\x07\x07\x07\x07\x07\x07\x07\
    \0\x20\
    \x07\x07\x07\x07\x07\x07\x07\x07\x07\x07\x07\x07\x07\x07\x07\x07\x07\x07\x07\x07\x07\x07\x07\x07\x07\x07\x07\x07\x07\x07\x07\x07";

const ADMIN: &[u8] = b"\x04Org1\0\x02a0";

fn example() -> &'static [u8] {
    EXAMPLE
}

// What is read of it in a block of version 2.
fn decode_update(alloc: Global, bytes: &[u8]) -> Result<SpelledItem<'_>, TxFault> {
    decode_item(alloc, BlockVersion::V2, bytes)
}

fn update_of(alloc: Global, bytes: &[u8]) -> Result<Update<'_>, TxFault> {
    match decode_update(alloc, bytes)?.into_item() {
        Item::Update(update) => Ok(update),
        Item::Tx(_) => Err(TxFault::Form),
    }
}

fn fault_of(alloc: Global, bytes: &[u8]) -> Option<TxFault> {
    decode_update(alloc, bytes).err()
}

// How long its body, what is signed of it, and all of it are, if they are beginnings of the bytes.
fn lens(update: &Update<'_>, alloc: Global, bytes: &[u8]) -> [Option<usize>; 3] {
    [
        beginning(encode_update_body(alloc, update), bytes),
        beginning(encode_update_signed(alloc, update), bytes),
        beginning(encode_update(alloc, update), bytes),
    ]
}

fn lens_of(item: &Item<'_>, alloc: Global, bytes: &[u8]) -> [Option<usize>; 3] {
    match item {
        Item::Update(update) => lens(update, alloc, bytes),
        Item::Tx(_) => [None; 3],
    }
}

// Whether these are its body, what is signed of it, and its creator.
fn are_parts(
    spelled: &SpelledItem<'_>,
    body: Option<&[u8]>,
    signed: Option<&[u8]>,
    creator: &[u8],
) -> bool {
    body == Some(spelled.body())
        && signed == Some(spelled.creator_message())
        && creator == spelled.creator_bytes()
}

fn is_both_ways(alloc: Global, bytes: &[u8]) -> Result<bool, TxFault> {
    let spelled = decode_update(alloc, bytes)?;
    Ok(
        are_parts(&spelled, bytes.get(..100), bytes.get(..144), ADMIN)
            && lens_of(spelled.item(), alloc, bytes) == [Some(100), Some(144), Some(178)],
    )
}

// Its channel, its creator's label, its nonce, namespace, policy and signature.
fn texts<'a>(update: &Update<'a>) -> [&'a [u8]; 6] {
    [
        update.channel.as_slice(),
        update.creator.label.as_slice(),
        update.nonce.as_slice(),
        update.namespace.as_slice(),
        update.policy.as_slice(),
        update.signature.as_slice(),
    ]
}

fn are_fields(update: &Update<'_>) -> bool {
    texts(update)
        == [
            b"ch".as_slice(),
            b"a0",
            b"n2",
            b"cc",
            b"OR('Org2.peer')",
            &[7; 32],
        ]
        && update.creator.role == Role::Admin
        && update.id == [5; 64]
}

fn is_endorsement(endorsement: &Endorsement<'_>) -> bool {
    [
        endorsement.endorser.label.as_slice(),
        endorsement.signature.as_slice(),
    ] == [b"a0".as_slice(), &[7; 32]]
}

fn are_endorsements(endorsements: &[Endorsement<'_>]) -> bool {
    match endorsements {
        [endorsement] => is_endorsement(endorsement),
        _ => false,
    }
}

fn is_example(alloc: Global, bytes: &[u8]) -> Result<bool, TxFault> {
    let update = update_of(alloc, bytes)?;
    Ok(are_fields(&update) && are_endorsements(update.endorsements.as_slice()))
}

#[test]
fn the_example_both_ways_and_what_it_says(rt: HostRuntime) -> Result<(), TxFault> {
    assert!(rt; is_both_ways(rt.alloc(), EXAMPLE)?);
    assert!(rt; is_example(rt.alloc(), EXAMPLE)?);
    Ok(())
}
