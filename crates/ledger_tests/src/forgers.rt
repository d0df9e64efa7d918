//! Who signs with other keys than those by which signatures verify, so that bad signatures can be drafted.

use crate::fixture::{CREATOR, Peer, read_keys};
use crate::scripted::drafted;
use block::BlockVersion;
use header_hash::tx_id;
use key_book::KeyBook;
use rules::{FirstUse, Flag};
use std::alloc::Global;
use test_support::{Failed, check};
use world::World;

const SIGNING: &str = "\
Org1:client:c0 11
Org1:peer:p0 22
Org2:peer:q0 33
Org1:client:f 44
Org1:peer:f 55
Org2:peer:f 66
";

// Those with the label `f` are the forgers.
const VERIFYING: &str = "\
Org1:client:c0 11
Org1:peer:p0 22
Org2:peer:q0 33
Org1:client:f 47
Org1:peer:f 58
Org2:peer:f 69
";

/// The bytes of the identity `Org1:client:f`.
pub const FORGER: &[u8] = b"\x04Org1\x01\x01f";

/// By which blocks are drafted, and by which they are taken.
#[derive(Drop)]
pub struct Books {
    pub signing: KeyBook,
    pub verifying: KeyBook,
}

/// Both books.
pub fn read_books(alloc: Global) -> Result<Books, Failed> {
    let signing = read_keys(alloc, SIGNING)?;
    let verifying = read_keys(alloc, VERIFYING)?;
    Ok(Books { signing, verifying })
}

const SCRIPT: &str = "\
tx Org1:client:f n0 cc
ns cc
write a v
endorse Org1:peer:p0
tx Org1:client:c0 n1 cc
ns cc
write b v
endorse Org1:peer:f
tx Org1:client:c0 n2 both
ns both
write c v
endorse Org1:peer:p0
endorse Org2:peer:f
tx Org1:client:c0 n3 cc
ns cc
write d v
endorse Org2:peer:f
endorse Org1:peer:p0
tx Org1:client:f n0 cc
tx Org1:client:c0 n1 cc
";

/// The flags of the script's block, and the first uses of the ids of its first two transactions.
struct Taken {
    flags: [u8; 6],
    forger: Option<FirstUse>,
    other: Option<FirstUse>,
}

// Where the forgers' keys verify, all but the last two, which have ids of the first two, are valid.
static TRUE: Taken = Taken {
    flags: [0, 0, 0, 0, 9, 9],
    forger: Some(FirstUse {
        block: 0,
        place: 0,
        flag: Flag::Valid,
    }),
    other: Some(FirstUse {
        block: 0,
        place: 1,
        flag: Flag::Valid,
    }),
};

// A bad creator's signature is told before an id that was used, and uses none; a bad endorsement doesn't count.
static FORGED: Taken = Taken {
    flags: [4, 10, 10, 0, 4, 9],
    forger: None,
    other: Some(FirstUse {
        block: 0,
        place: 1,
        flag: Flag::EndorsementPolicyFailure,
    }),
};

fn are_used(world: &World, taken: &Taken) -> bool {
    world.flag_of(&tx_id(b"n0", FORGER)) == taken.forger
        && world.flag_of(&tx_id(b"n1", CREATOR)) == taken.other
}

// Wants the script's block, drafted by the one book, taken so by the other.
fn check_taken(
    alloc: Global,
    peer: &mut Peer,
    signing: &KeyBook,
    verifying: &KeyBook,
    taken: &Taken,
) -> Result<(), Failed> {
    let block = drafted(alloc, signing, BlockVersion::V1, None, SCRIPT)?;
    check(peer.is_taken(block.as_slice(), verifying, &taken.flags)?)?;
    check(are_used(peer.world(), taken))
}

fn check_by(
    alloc: Global,
    signing: &KeyBook,
    verifying: &KeyBook,
    taken: &Taken,
) -> Result<(), Failed> {
    let mut peer = Peer::open(alloc)?;
    check_taken(alloc, &mut peer, signing, verifying, taken)
}

fn check_both(alloc: Global, books: &Books) -> Result<(), Failed> {
    check_by(alloc, &books.signing, &books.signing, &TRUE)?;
    check_by(alloc, &books.signing, &books.verifying, &FORGED)
}

fn check_signatures(alloc: Global) -> Result<(), Failed> {
    let books = read_books(alloc)?;
    check_both(alloc, &books)
}

#[test]
fn signatures_by_other_keys(rt: HostRuntime) -> Result<(), Failed> {
    check_signatures(rt.alloc())
}
