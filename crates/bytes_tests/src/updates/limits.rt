//! How large an update's parts can be, up to their limits, written and read again.

use super::{fault_of, update_of};
use crate::fields::with_field;
use crate::parts::{letters, name};
use crate::too_large::TooLarge::{Body, Nothing, Signed, Whole};
use crate::too_large::{Faults, TooLarge};
use std::alloc::{AllocError, Global};
use std::process::Abort;
use transaction::{
    EncodeFault, Endorsement, Identity, Role, TxFault, Update, encode_update, encode_update_body,
    encode_update_signed,
};
use values::{Bytes, Items, Slice};

#[derive(Clone, Copy)]
struct Sizes {
    label: usize,
    nonce: usize,
    policy: usize,
    signature: usize,
    endorsements: usize,
    endorser_label: usize,
    endorser_signature: usize,
}

const SMALL: Sizes = Sizes {
    label: 0,
    nonce: 0,
    policy: 0,
    signature: 0,
    endorsements: 1,
    endorser_label: 0,
    endorser_signature: 0,
};

// The part whose size is given.
#[derive(Clone, Copy)]
enum Part {
    Label,
    Nonce,
    Policy,
    Endorsements,
    EndorserLabel,
    EndorserSignature,
    Signature,
    // The policy with 16 endorsements, with which the signed part has 1,040,178 bytes more, the whole two more.
    PolicyOfMany,
}

fn sizes_with(part: Part, size: usize) -> Sizes {
    let mut sizes = SMALL;
    match part {
        Part::Label => sizes.label = size,
        Part::Nonce => sizes.nonce = size,
        Part::Policy => sizes.policy = size,
        Part::Endorsements => sizes.endorsements = size,
        Part::EndorserLabel => sizes.endorser_label = size,
        Part::EndorserSignature => sizes.endorser_signature = size,
        Part::Signature => sizes.signature = size,
        Part::PolicyOfMany => {
            sizes.policy = size;
            sizes.endorsements = 16;
            sizes.endorser_signature = 65_000;
        }
    }
    sizes
}

fn admin<'a>(rt: &impl Abort, org: &'static [u8], label: Slice<'a>) -> Identity<'a> {
    Identity {
        org: name(rt, org),
        role: Role::Admin,
        label,
    }
}

fn endorsement<'a>(rt: &impl Abort, filler: &'a [u8], sizes: &Sizes) -> Endorsement<'a> {
    Endorsement {
        endorser: admin(rt, b"O", letters(filler, sizes.endorser_label)),
        signature: letters(filler, sizes.endorser_signature),
    }
}

fn endorsements<'a>(
    rt: &impl Abort,
    alloc: Global,
    filler: &'a [u8],
    sizes: &Sizes,
) -> Result<Items<Endorsement<'a>>, AllocError> {
    let mut endorsements = Items::new(alloc);
    for _ in 0..sizes.endorsements {
        endorsements.push(endorsement(rt, filler, sizes))?;
    }
    Ok(endorsements)
}

// Its body has 81 bytes besides the label, the nonce and the policy, each endorsement 6 besides what it has of these
// sizes.
fn with_sizes<'a>(
    rt: &impl Abort,
    alloc: Global,
    filler: &'a [u8],
    sizes: &Sizes,
) -> Result<Update<'a>, AllocError> {
    let endorsements = endorsements(rt, alloc, filler, sizes)?;
    Ok(Update {
        channel: name(rt, b"ch"),
        id: [5; 64],
        creator: admin(rt, b"Org1", letters(filler, sizes.label)),
        nonce: letters(filler, sizes.nonce),
        namespace: name(rt, b"cc"),
        policy: letters(filler, sizes.policy),
        endorsements,
        signature: letters(filler, sizes.signature),
    })
}

// What keeps its body, what is signed of it, and all of it from being written.
fn encode_faults(update: &Update<'_>, alloc: Global) -> Faults {
    [
        encode_update_body(alloc, update).err(),
        encode_update_signed(alloc, update).err(),
        encode_update(alloc, update).err(),
    ]
}

fn is_written_as(update: &Update<'_>, alloc: Global, bytes: &[u8]) -> bool {
    match encode_update(alloc, update) {
        Ok(written) => written.as_slice() == bytes,
        Err(_) => false,
    }
}

// Whether what was written is read, and written again, unchanged.
fn is_read_again(alloc: Global, written: &[u8]) -> bool {
    match update_of(alloc, written) {
        Ok(update) => is_written_as(&update, alloc, written),
        Err(_) => false,
    }
}

fn is_written_twice(update: &Update<'_>, alloc: Global) -> bool {
    match encode_update(alloc, update) {
        Ok(written) => is_read_again(alloc, written.as_slice()),
        Err(_) => false,
    }
}

fn rows() -> &'static [(Part, usize, TooLarge)] {
    &ROWS
}

static ROWS: [(Part, usize, TooLarge); 21] = [
    (Part::Label, 0, Nothing),
    (Part::Label, 255, Nothing),
    (Part::Label, 256, Body),
    (Part::Nonce, 255, Nothing),
    (Part::Nonce, 256, Body),
    (Part::Policy, 65_535, Nothing),
    (Part::Policy, 65_536, Body),
    (Part::Endorsements, 0, Nothing),
    (Part::Endorsements, 64, Nothing),
    (Part::Endorsements, 65, Signed),
    (Part::EndorserLabel, 255, Nothing),
    (Part::EndorserLabel, 256, Signed),
    (Part::EndorserSignature, 65_535, Nothing),
    (Part::EndorserSignature, 65_536, Signed),
    (Part::Signature, 65_535, Nothing),
    (Part::Signature, 65_536, Whole),
    (Part::PolicyOfMany, 1_048_576 - 1_040_180, Nothing),
    (Part::PolicyOfMany, 1_048_576 - 1_040_179, Whole),
    (Part::PolicyOfMany, 1_048_576 - 1_040_178, Whole),
    (Part::PolicyOfMany, 1_048_576 - 1_040_177, Signed),
    (Part::PolicyOfMany, 65_535, Signed),
];

fn is_as_said(update: &Update<'_>, alloc: Global, faults: Faults) -> bool {
    encode_faults(update, alloc) == faults
        && is_written_twice(update, alloc) == (faults == [None; 3])
}

fn are_as_said(
    rt: &impl Abort,
    alloc: Global,
    sizes: &Sizes,
    faults: Faults,
) -> Result<bool, AllocError> {
    let filler = vec![in alloc; b'a'; 65_536]?;
    let update = with_sizes(rt, alloc, &filler, sizes)?;
    Ok(is_as_said(&update, alloc, faults))
}

fn written(rt: &impl Abort, alloc: Global, sizes: &Sizes) -> Result<Bytes, EncodeFault> {
    let filler = vec![in alloc; b'a'; 65_536]?;
    let update = with_sizes(rt, alloc, &filler, sizes)?;
    encode_update(alloc, &update)
}

// Whether these 1,048,576 bytes are read, and with one byte more of the policy, which has 8,396 and whose length is at
// 79, aren't.
fn are_most(alloc: Global, bytes: &[u8]) -> Result<bool, AllocError> {
    let more = with_field(alloc, bytes, 79, 81, b"\x20\xcda")?;
    Ok(
        bytes.len() == 1_048_576
            && bytes.get(79..81) == Some(b"\x20\xcc".as_slice())
            && fault_of(alloc, bytes).is_none()
            && fault_of(alloc, &more) == Some(TxFault::Form),
    )
}

fn is_most_read(rt: &impl Abort, alloc: Global) -> Result<bool, EncodeFault> {
    let sizes = sizes_with(Part::PolicyOfMany, 1_048_576 - 1_040_180);
    let bytes = written(rt, alloc, &sizes)?;
    Ok(are_most(alloc, bytes.as_slice())?)
}

#[test]
fn each_part_at_its_limit(rt: HostRuntime) -> Result<(), EncodeFault> {
    for (row, &(part, size, too_large)) in rows().iter().enumerate() {
        let sizes = sizes_with(part, size);
        assert!(rt;
            are_as_said(&rt, rt.alloc(), &sizes, too_large.faults())?,
            "row {row}"
        );
    }
    assert!(rt; is_most_read(&rt, rt.alloc())?);
    Ok(())
}
