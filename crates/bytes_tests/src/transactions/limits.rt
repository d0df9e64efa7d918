//! How large a transaction's parts can be, up to their limits, written and read again.

use crate::parts::{key, letters, name};
use crate::too_large::TooLarge::{Body, Nothing, Signed, Whole};
use crate::too_large::{Faults, TooLarge};
use std::alloc::{AllocError, Global};
use std::process::Abort;
use transaction::{
    Endorsement, Identity, NsSet, Role, Tx, Write, decode_tx, encode_body, encode_identity,
    encode_signed, encode_tx,
};
use values::{Items, Slice};

#[derive(Clone, Copy)]
struct Sizes {
    label: usize,
    nonce: usize,
    value: usize,
    endorsements: usize,
    signature: usize,
}

const SMALL: Sizes = Sizes {
    label: 2,
    nonce: 2,
    value: 1,
    endorsements: 0,
    signature: 0,
};

// The part whose size is given.
#[derive(Clone, Copy)]
enum Part {
    Label,
    Nonce,
    Value,
    Endorsements,
    Signature,
}

fn sizes_with(part: Part, size: usize) -> Sizes {
    let mut sizes = SMALL;
    match part {
        Part::Label => sizes.label = size,
        Part::Nonce => sizes.nonce = size,
        Part::Value => sizes.value = size,
        Part::Endorsements => sizes.endorsements = size,
        Part::Signature => sizes.signature = size,
    }
    sizes
}

fn identity<'a>(rt: &impl Abort, org: &'static [u8], role: Role, label: Slice<'a>) -> Identity<'a> {
    Identity {
        org: name(rt, org),
        role,
        label,
    }
}

fn endorsement(rt: &impl Abort) -> Endorsement<'static> {
    Endorsement {
        endorser: identity(rt, b"O", Role::Peer, Slice::new(b"")),
        signature: Slice::new(b""),
    }
}

fn endorsements(
    rt: &impl Abort,
    alloc: Global,
    count: usize,
) -> Result<Items<Endorsement<'static>>, AllocError> {
    let mut endorsements = Items::new(alloc);
    for _ in 0..count {
        endorsements.push(endorsement(rt))?;
    }
    Ok(endorsements)
}

// One write of this value.
fn writes<'a>(
    rt: &impl Abort,
    alloc: Global,
    value: Slice<'a>,
) -> Result<Items<Write<'a>>, AllocError> {
    let write = Write {
        key: key(rt, b"k3"),
        value: Some(value),
    };
    Ok(Items::from_vec(vec![in alloc; write]?))
}

fn set<'a>(rt: &impl Abort, alloc: Global, writes: Items<Write<'a>>) -> NsSet<'a> {
    NsSet {
        name: name(rt, b"cc"),
        reads: Items::new(alloc),
        ranges: Items::new(alloc),
        writes,
        policy_writes: Items::new(alloc),
    }
}

fn sets<'a>(
    rt: &impl Abort,
    alloc: Global,
    value: Slice<'a>,
) -> Result<Items<NsSet<'a>>, AllocError> {
    let set = set(rt, alloc, writes(rt, alloc, value)?);
    Ok(Items::from_vec(vec![in alloc; set]?))
}

fn tx<'a>(
    rt: &impl Abort,
    filler: &'a [u8],
    sizes: &Sizes,
    namespaces: Items<NsSet<'a>>,
    endorsements: Items<Endorsement<'a>>,
) -> Tx<'a> {
    Tx {
        channel: name(rt, b"ch"),
        id: [5; 64],
        creator: identity(rt, b"Org1", Role::Client, letters(filler, sizes.label)),
        nonce: letters(filler, sizes.nonce),
        chaincode: name(rt, b"cc"),
        namespaces,
        endorsements,
        signature: letters(filler, sizes.signature),
    }
}

// With labels and nonces of two bytes and no endorsements its body has 104 bytes besides the value, the signed part
// 105, the whole 107 besides the signature.
fn with_sizes<'a>(
    rt: &impl Abort,
    alloc: Global,
    filler: &'a [u8],
    sizes: &Sizes,
) -> Result<Tx<'a>, AllocError> {
    let namespaces = sets(rt, alloc, letters(filler, sizes.value))?;
    let endorsements = endorsements(rt, alloc, sizes.endorsements)?;
    Ok(tx(rt, filler, sizes, namespaces, endorsements))
}

// What keeps its body, what is signed of it, and all of it from being written.
fn encode_faults(tx: &Tx<'_>, alloc: Global) -> Faults {
    [
        encode_body(alloc, tx).err(),
        encode_signed(alloc, tx).err(),
        encode_tx(alloc, tx).err(),
    ]
}

fn is_creator_written(tx: &Tx<'_>, alloc: Global) -> bool {
    encode_identity(alloc, &tx.creator).is_ok()
}

fn is_written_as(tx: &Tx<'_>, alloc: Global, bytes: &[u8]) -> bool {
    match encode_tx(alloc, tx) {
        Ok(written) => written.as_slice() == bytes,
        Err(_) => false,
    }
}

// Whether what was written is read, with this many endorsements, and written again, unchanged.
fn is_read_again(alloc: Global, written: &[u8], endorsements: usize) -> bool {
    match decode_tx(alloc, written) {
        Ok(read) => {
            read.tx().endorsements.len() == endorsements && is_written_as(read.tx(), alloc, written)
        }
        Err(_) => false,
    }
}

fn is_written_twice(tx: &Tx<'_>, alloc: Global, endorsements: usize) -> bool {
    match encode_tx(alloc, tx) {
        Ok(written) => is_read_again(alloc, written.as_slice(), endorsements),
        Err(_) => false,
    }
}

fn rows() -> &'static [(Part, usize, TooLarge)] {
    &ROWS
}

static ROWS: [(Part, usize, TooLarge); 15] = [
    (Part::Label, 0, Nothing),
    (Part::Label, 255, Nothing),
    (Part::Label, 256, Body),
    (Part::Nonce, 0, Nothing),
    (Part::Nonce, 255, Nothing),
    (Part::Nonce, 256, Body),
    (Part::Signature, 65_535, Nothing),
    (Part::Signature, 65_536, Whole),
    (Part::Endorsements, 64, Nothing),
    (Part::Endorsements, 65, Signed),
    (Part::Value, 1_048_576 - 107, Nothing),
    (Part::Value, 1_048_576 - 106, Whole),
    (Part::Value, 1_048_576 - 105, Whole),
    (Part::Value, 1_048_576 - 104, Signed),
    (Part::Value, 1_048_576 - 103, Body),
];

fn is_as_said(tx: &Tx<'_>, alloc: Global, sizes: &Sizes, faults: Faults) -> bool {
    encode_faults(tx, alloc) == faults
        && is_written_twice(tx, alloc, sizes.endorsements) == (faults == [None; 3])
        && is_creator_written(tx, alloc) == (sizes.label < 256)
}

fn are_as_said(
    rt: &impl Abort,
    alloc: Global,
    sizes: &Sizes,
    faults: Faults,
) -> Result<bool, AllocError> {
    let filler = vec![in alloc; 3; sizes.value.max(65_536)]?;
    let tx = with_sizes(rt, alloc, &filler, sizes)?;
    Ok(is_as_said(&tx, alloc, sizes, faults))
}

#[test]
fn each_part_at_its_limit(rt: HostRuntime) -> Result<(), AllocError> {
    for (row, &(part, size, too_large)) in rows().iter().enumerate() {
        let sizes = sizes_with(part, size);
        assert!(rt;
            are_as_said(&rt, rt.alloc(), &sizes, too_large.faults())?,
            "row {row}"
        );
    }
    Ok(())
}
