//! The signatures of a drafted block, as they are listed for a verifier.

use crate::fixture::{book, drafted};
use block::BlockVersion;
use key_book::KeyBook;
use signature_requests::{Request, requests};
use std::alloc::Global;
use test_support::{Failed, check, is_alike};
use transaction::Role;

// A transaction with one endorsement, bytes that encode nothing, and an update that one endorses twice.
const SCRIPT: &str = "tx Org1:client:c0 n0 cc
ns cc
write k v
endorse Org1:peer:p0
raw ff
update Org1:client:c0 n1 cc OR('Org2.peer')
endorse Org1:peer:p0
endorse Org1:peer:p0
";

// Of a client that creates and a peer that endorses.
const ROLES: [Role; 5] = [
    Role::Client,
    Role::Peer,
    Role::Client,
    Role::Peer,
    Role::Peer,
];

fn is_signed(alloc: Global, keys: &KeyBook, request: &Request<'_>) -> Result<bool, Failed> {
    let message = request.message.copy(alloc)?;
    match keys.sign(&request.identity, message.as_slice()) {
        Some(wanted) => Ok(wanted.as_slice() == request.signature.as_slice()),
        None => Ok(false),
    }
}

fn check_each(alloc: Global, keys: &KeyBook, listed: &[Request<'_>]) -> Result<(), Failed> {
    check(listed.len() == ROLES.len())?;
    for (request, role) in listed.iter().zip(&ROLES) {
        check(request.identity.role == *role)?;
        check(is_signed(alloc, keys, request)?)?;
    }
    Ok(())
}

fn check_listed(alloc: Global, keys: &KeyBook, bytes: &[u8]) -> Result<(), Failed> {
    let listed = requests(alloc, bytes)?;
    check_each(alloc, keys, listed.as_slice())
}

fn check_drafted(alloc: Global, script: &str) -> Result<(), Failed> {
    let keys = book(alloc)?;
    match drafted(alloc, &keys, BlockVersion::V2, None, script)? {
        Ok(bytes) => check_listed(alloc, &keys, bytes.as_slice()),
        Err(_) => Err(Failed::Unlike),
    }
}

#[test]
fn signatures_of_a_drafted_block(rt: HostRuntime) -> Result<(), Failed> {
    assert!(rt; is_alike(check_drafted(rt.alloc(), SCRIPT))?);
    Ok(())
}
