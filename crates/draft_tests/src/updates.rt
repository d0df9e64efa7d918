//! Lines of updates, and what the drafted ones are decoded to.

use crate::fixture::{book, drafted, faulty_line};
use block::{BlockVersion, decode_block};
use header_hash::tx_id;
use key_book::KeyBook;
use std::alloc::Global;
use test_support::{Failed, check, is_alike};
use transaction::{
    Endorsement, Identity, Item, Role, SpelledItem, Update, decode_item, encode_identity,
};

// How many of the scripts have this first faulty line in this version, up to the first that doesn't.
fn faulty_so(
    alloc: Global,
    version: BlockVersion,
    scripts: &[(&str, Option<u64>)],
) -> Result<usize, Failed> {
    let keys = book(alloc)?;
    for (count, (script, line)) in scripts.iter().enumerate() {
        if faulty_line(alloc, &keys, version, script)? != *line {
            return Ok(count);
        }
    }
    Ok(scripts.len())
}

fn lines() -> &'static [(&'static str, Option<u64>)] {
    &LINES
}

static LINES: [(&str, Option<u64>); 43] = [
    ("update Org1:client:c0 n cc OR('Org2.peer')", None),
    ("  update   Org1:client:c0   %   cc   AND(  ", None),
    ("update Org1:client:c0 n cc two  words", None),
    ("update Org1:client:c0 n cc \u{e9}", None),
    (
        "update Org1:client:c0 n cc x\nendorse Org1:peer:p0\n\n# again\nendorse Org1:peer:p0",
        None,
    ),
    // among others, of which it ends the one before it
    (
        "tx Org1:client:c0 n cc\nns cc\nupdate Org1:client:c0 n cc x\nraw 00\nupdate Org1:peer:p0 n cc x\ntx Org1:client:c0 n cc",
        None,
    ),
    (
        "update Org1:client:c0 n cc x\nupdate Org1:client:c0 n cc x",
        None,
    ),
    (
        "update Org1:client:c0 n cc x\ntx Org1:client:c0 n cc\nns cc\nwrite k v",
        None,
    ),
    // a part is missing
    ("update", Some(1)),
    ("update Org1:client:c0", Some(1)),
    ("update Org1:client:c0 n", Some(1)),
    ("update Org1:client:c0 n cc", Some(1)),
    ("update Org1:client:c0 n cc   ", Some(1)),
    // or is off
    ("UPDATE Org1:client:c0 n cc x", Some(1)),
    ("update\tOrg1:client:c0 n cc x", Some(1)),
    ("update Org1:client:c0 n c/c x", Some(1)),
    ("update Org1:client:c0 n c%63 x", Some(1)),
    ("update Org1:client:c0 n% cc x", Some(1)),
    ("update Org1:client:c0 %n cc x", Some(1)),
    ("update Org1:client n cc x", Some(1)),
    ("update Org1:client: n cc x", Some(1)),
    ("update Org1:boss:c0 n cc x", Some(1)),
    // its creator or an endorser isn't in the book
    ("update Org1:client:c1 n cc x", Some(1)),
    ("update Org2:client:c0 n cc x", Some(1)),
    (
        "update Org1:client:c0 n cc x\nendorse Org1:peer:p1",
        Some(2),
    ),
    // lines of a transaction
    ("update Org1:client:c0 n cc x\nns cc", Some(2)),
    ("update Org1:client:c0 n cc x\nread k absent", Some(2)),
    ("update Org1:client:c0 n cc x\nrange a z all", Some(2)),
    ("update Org1:client:c0 n cc x\nresult k 0 0", Some(2)),
    ("update Org1:client:c0 n cc x\nwrite k v", Some(2)),
    ("update Org1:client:c0 n cc x\ndelete k", Some(2)),
    ("update Org1:client:c0 n cc x\npolicy k y", Some(2)),
    ("update Org1:client:c0 n cc x\nnopolicy k", Some(2)),
    (
        "update Org1:client:c0 n cc x\nendorse Org1:peer:p0\nns cc",
        Some(3),
    ),
    // nothing of the transaction before it is open any more
    (
        "tx Org1:client:c0 n cc\nns cc\nupdate Org1:client:c0 n cc x\nwrite k v",
        Some(4),
    ),
    (
        "tx Org1:client:c0 n cc\nns cc\nrange a z all\nupdate Org1:client:c0 n cc x\nresult b 0 0",
        Some(5),
    ),
    (
        "update Org1:client:c0 n cc x\nraw\nendorse Org1:peer:p0",
        Some(3),
    ),
    ("update Org1:client:c0 n cc x\nupdate", Some(2)),
    ("update Org1:client:c0 n cc x\nraw 0", Some(2)),
    ("update Org1:client:c0 n cc x\ntx", Some(2)),
    ("raw 0\nupdate", Some(1)),
    ("# one\n\nupdate\nraw 0", Some(3)),
    ("ns cc\nupdate Org1:client:c0 n cc x", Some(1)),
];

#[test]
fn lines_of_updates(rt: HostRuntime) -> Result<(), Failed> {
    let scripts = lines();
    assert!(rt; faulty_so(rt.alloc(), BlockVersion::V2, scripts)? == scripts.len());
    Ok(())
}

fn lines_in_version_1() -> &'static [(&'static str, Option<u64>)] {
    &LINES_IN_VERSION_1
}

static LINES_IN_VERSION_1: [(&str, Option<u64>); 6] = [
    ("update Org1:client:c0 n cc OR('Org2.peer')", Some(1)),
    ("# one\n\nraw\nupdate Org1:client:c0 n cc x\nraw 0", Some(4)),
    (
        "tx Org1:client:c0 n cc\nns cc\nwrite k v\nendorse Org1:peer:p0\nupdate Org1:client:c0 m cc x",
        Some(5),
    ),
    (
        "update Org1:client:c0 n cc x\nendorse Org1:peer:p0",
        Some(1),
    ),
    ("raw 0\nupdate Org1:client:c0 n cc x", Some(1)),
    ("tx Org1:client:c0 n cc\nns cc\nwrite update update", None),
];

#[test]
fn no_updates_in_version_1(rt: HostRuntime) -> Result<(), Failed> {
    let scripts = lines_in_version_1();
    assert!(rt; faulty_so(rt.alloc(), BlockVersion::V1, scripts)? == scripts.len());
    Ok(())
}

// An update that one endorses, after a transaction.
const SCRIPT: &str = "tx Org1:peer:p0 n0 cc
update Org1:client:c0 n1 d.d OR('Org2.peer')
endorse Org1:peer:p0
";

fn is_identity(identity: &Identity<'_>, role: Role, label: &[u8]) -> bool {
    identity.org.as_slice() == b"Org1".as_slice()
        && identity.role == role
        && identity.label.as_slice() == label
}

fn says(update: &Update<'_>) -> bool {
    update.channel.as_slice() == b"ch".as_slice()
        && is_identity(&update.creator, Role::Client, b"c0")
        && update.nonce.as_slice() == b"n1".as_slice()
        && update.namespace.as_slice() == b"d.d".as_slice()
        && update.policy.as_slice() == b"OR('Org2.peer')".as_slice()
}

fn is_signed(keys: &KeyBook, signer: &Identity<'_>, message: &[u8], signature: &[u8]) -> bool {
    match keys.sign(signer, message) {
        Some(wanted) => wanted.as_slice() == signature,
        None => false,
    }
}

// Whether the endorser signed the body followed by its own bytes.
fn is_endorsed(
    alloc: Global,
    keys: &KeyBook,
    body: &[u8],
    endorsement: &Endorsement<'_>,
) -> Result<bool, Failed> {
    let endorser = encode_identity(alloc, &endorsement.endorser)?;
    let message = [body, endorser.as_slice()].concat(alloc)?;
    let signature = endorsement.signature.as_slice();
    Ok(is_signed(keys, &endorsement.endorser, message.as_slice(), signature))
}

fn check_update(
    alloc: Global,
    keys: &KeyBook,
    spelled: &SpelledItem<'_>,
    update: &Update<'_>,
) -> Result<(), Failed> {
    check(says(update))?;
    check(update.id == tx_id(b"n1", spelled.creator_bytes()))?;
    check(is_signed(
        keys,
        &update.creator,
        spelled.creator_message(),
        update.signature.as_slice(),
    ))?;
    match update.endorsements.as_slice() {
        [one] => {
            check(is_identity(&one.endorser, Role::Peer, b"p0"))?;
            check(is_endorsed(alloc, keys, spelled.body(), one)?)
        }
        _ => Err(Failed::Unlike),
    }
}

// Whether the bytes are the update in version 2, and nothing in version 1.
fn check_bytes(alloc: Global, keys: &KeyBook, bytes: &[u8]) -> Result<(), Failed> {
    let spelled = decode_item(alloc, BlockVersion::V2, bytes)?;
    check(decode_item(alloc, BlockVersion::V1, bytes).is_err())?;
    match spelled.item() {
        Item::Update(update) => check_update(alloc, keys, &spelled, update),
        Item::Tx(_) => Err(Failed::Unlike),
    }
}

fn check_block(alloc: Global, keys: &KeyBook, bytes: &[u8]) -> Result<(), Failed> {
    let block = decode_block(alloc, bytes)?;
    check(block.version == BlockVersion::V2)?;
    match block.txs.as_slice() {
        [_, update] => check_bytes(alloc, keys, update.as_slice()),
        _ => Err(Failed::Unlike),
    }
}

fn check_drafted(alloc: Global, script: &str) -> Result<(), Failed> {
    let keys = book(alloc)?;
    match drafted(alloc, &keys, BlockVersion::V2, None, script)? {
        Ok(bytes) => check_block(alloc, &keys, bytes.as_slice()),
        Err(_) => Err(Failed::Unlike),
    }
}

#[test]
fn drafted_updates_are_decoded(rt: HostRuntime) -> Result<(), Failed> {
    assert!(rt; is_alike(check_drafted(rt.alloc(), SCRIPT))?);
    Ok(())
}
