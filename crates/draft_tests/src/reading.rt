//! What is read of a script, up to its first faulty line.

use crate::fixture::book;
use block::BlockVersion;
use key_book::KeyBook;
use scripts::{Content, Draft, Item, OwnedNsSet, Script, read};
use std::alloc::{AllocError, Global};
use test_support::Failed;
use transaction::{Identity, Role};

// A script, how many of its transactions ended before its first faulty line, and that line.
type ReadCase = (&'static str, usize, Option<u64>);

fn is_read_so(alloc: Global, keys: &KeyBook, case: &ReadCase) -> Result<bool, AllocError> {
    let script = read(alloc, BlockVersion::V1, case.0, keys)?;
    Ok(script.items.len() == case.1 && script.fault == case.2)
}

// How many of the scripts are read so, up to the first that isn't.
fn read_so(alloc: Global, cases: &[ReadCase]) -> Result<usize, Failed> {
    let keys = book(alloc)?;
    for (count, case) in cases.iter().enumerate() {
        if !is_read_so(alloc, &keys, case)? {
            return Ok(count);
        }
    }
    Ok(cases.len())
}

fn cases() -> &'static [ReadCase] {
    &CASES
}

static CASES: [ReadCase; 9] = [
    ("", 0, None),
    ("raw\nraw 00\n", 2, None),
    ("raw\nraw 0\nraw\n", 1, Some(2)),
    ("tx Org1:client:c0 n cc\n", 1, None),
    // one that is open hasn't ended
    ("tx Org1:client:c0 n cc\nno line\n", 0, Some(2)),
    ("tx Org1:client:c0 n cc\ntx\n", 1, Some(2)),
    ("tx Org1:client:c0 n cc\nraw 0\n", 1, Some(2)),
    (
        "tx Org1:client:c0 n cc\nraw\nendorse Org1:peer:p0\n",
        2,
        Some(3),
    ),
    (
        "tx Org1:client:c0 n cc\ntx Org1:client:c0 m cc\nns cc\nwrite k v\nwrite k\n",
        1,
        Some(5),
    ),
];

#[test]
fn items_and_faults(rt: HostRuntime) -> Result<(), Failed> {
    let cases = cases();
    assert!(rt; read_so(rt.alloc(), cases)? == cases.len());
    Ok(())
}

const TWO: &str = "raw 0aFf

tx Org1:client:c0 n0 cc
ns cc
read k1 absent
ns dd
endorse Org1:peer:p0
write k1 v1
";

fn is_identity(identity: &Identity<'_>, org: &[u8], role: Role, label: &[u8]) -> bool {
    identity.org.as_slice() == org && identity.role == role && identity.label.as_slice() == label
}

fn is_first(item: &Item) -> bool {
    match item {
        Item::Raw(bytes) => bytes.as_slice() == b"\x0a\xff".as_slice(),
        Item::Drafted(_) => false,
    }
}

fn is_client(draft: &Draft) -> bool {
    is_identity(&draft.creator(), b"Org1", Role::Client, b"c0")
        && draft.line() == 3
        && draft.nonce().as_slice() == b"n0".as_slice()
        && draft.chaincode().as_slice() == b"cc".as_slice()
}

fn is_peer(draft: &Draft) -> bool {
    match draft.endorsers() {
        [one] => is_identity(&one.lend(), b"Org1", Role::Peer, b"p0"),
        _ => false,
    }
}

// The numbers of reads and of writes.
fn sizes(alloc: Global, set: &OwnedNsSet) -> Result<(usize, usize), AllocError> {
    let lent = set.lend(alloc)?;
    Ok((lent.reads.len(), lent.writes.len()))
}

fn are_sets(alloc: Global, sets: &[OwnedNsSet]) -> Result<bool, AllocError> {
    match sets {
        [first, second] => { Ok(sizes(alloc, first)? == (1, 0) && sizes(alloc, second)? == (0, 1)) }
        _ => Ok(false),
    }
}

fn has_sets(alloc: Global, draft: &Draft) -> Result<bool, AllocError> {
    match draft.content() {
        Content::Tx(namespaces) => are_sets(alloc, namespaces.as_slice()),
        Content::Update(_) => Ok(false),
    }
}

fn is_second(alloc: Global, item: &Item) -> Result<bool, AllocError> {
    match item {
        Item::Raw(_) => Ok(false),
        Item::Drafted(draft) => {
            Ok(is_client(draft) && is_peer(draft) && has_sets(alloc, draft)?)
        }
    }
}

fn are_both(alloc: Global, script: &Script) -> Result<bool, AllocError> {
    match script.items.as_slice() {
        [first, second] => Ok(is_first(first) && is_second(alloc, second)?),
        _ => Ok(false),
    }
}

fn are_read(alloc: Global, version: BlockVersion, text: &str) -> Result<bool, Failed> {
    let keys = book(alloc)?;
    let script = read(alloc, version, text, &keys)?;
    Ok(are_both(alloc, &script)?)
}

// A script without updates means the same in both versions.
#[test]
fn parts_of_items(rt: HostRuntime) -> Result<(), Failed> {
    assert!(rt; are_read(rt.alloc(), BlockVersion::V1, TWO)?);
    assert!(rt; are_read(rt.alloc(), BlockVersion::V2, TWO)?);
    Ok(())
}
