use crate::fields::Field;
use crate::fields::Field::{Is, Long};
use std::alloc::{AllocError, Global};
use transaction::{Identity, Role, decode_identity, encode_identity};

const PEER: &[u8] = b"\x04Org1\x02\x02p0";

fn is_spelled(alloc: Global, identity: &Identity<'_>, bytes: &[u8]) -> bool {
    match encode_identity(alloc, identity) {
        Ok(written) => written.as_slice() == bytes,
        Err(_) => false,
    }
}

fn is_peer(identity: &Identity<'_>) -> bool {
    [identity.org.as_slice(), identity.label.as_slice()] == [b"Org1".as_slice(), b"p0"]
        && identity.role == Role::Peer
}

fn is_both_ways(alloc: Global) -> bool {
    match decode_identity(PEER) {
        Ok(identity) => is_peer(&identity) && is_spelled(alloc, &identity, PEER),
        Err(_) => false,
    }
}

fn rows() -> &'static [(Field, bool)] {
    &ROWS
}

static ROWS: [(Field, bool); 9] = [
    (Is(b"\x04Org1\x03\x02\xff\0"), true),
    (Is(b"\x04Org1\0\0"), true),
    (Is(b"\x04Org1\x04\x02p0"), false),
    (Is(b"\0\x02\x02p0"), false),
    (Is(b"\x04Or 1\x02\x02p0"), false),
    (Is(b"\x04Org1\x02\x02p0\0"), false),
    (Is(b"\x04Org1\x02\x03p0"), false),
    // Organizations at their limit.
    (Long(b"\x40", b"a", 64, b"\0\0"), true),
    (Long(b"\x41", b"a", 65, b"\0\0"), false),
];

fn is_identity(alloc: Global, field: &Field) -> Result<bool, AllocError> {
    let bytes = field.bytes(alloc)?;
    Ok(decode_identity(&bytes).is_ok())
}

#[test]
fn identities_and_bytes_that_are_none(rt: HostRuntime) -> Result<(), AllocError> {
    assert!(rt; is_both_ways(rt.alloc()));
    for (number, &(field, good)) in rows().iter().enumerate() {
        assert!(rt; is_identity(rt.alloc(), &field)? == good, "row {number}");
    }
    Ok(())
}
