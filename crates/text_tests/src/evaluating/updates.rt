//! Who signed an update, and what its creator signs.

use super::{
    ADMIN, BODY, Echo, P0, P1, are_spelled, body, endorsed_body, push_counted, push_endorsement,
};
use policy_eval::{Signers, Verify, signers, update_signers};
use std::alloc::{AllocError, Global};
use transaction::{BlockVersion, Item, SpelledItem, TxFault, decode_item};

pub(super) fn update_body() -> &'static [u8] {
    UPDATE
}

// Channel `ch`, creator `Org1:admin:a`, nonce `n2`, namespace `cc`, policy `OR('Org2.peer')`.
const UPDATE: &[u8] = b"\0\x02ch\
    \x05\x05\x05\x05\x05\x05\x05\x05\x05\x05\x05\x05\x05\x05\x05\x05\x05\x05\x05\x05\x05\x05\x05\x05\x05\x05\x05\x05\x05\x05\x05\x05\
    \x05\x05\x05\x05\x05\x05\x05\x05\x05\x05\x05\x05\x05\x05\x05\x05\x05\x05\x05\x05\x05\x05\x05\x05\x05\x05\x05\x05\x05\x05\x05\x05\
    \x04Org1\0\x01a\x02n2\x02cc\0\x0fOR('Org2.peer')";

fn signers_of_item<'a>(
    alloc: Global,
    spelled: &SpelledItem<'a>,
) -> Result<Signers<'a>, AllocError> {
    match spelled.item() {
        Item::Tx(tx) => signers(alloc, tx, &Echo),
        Item::Update(update) => update_signers(alloc, update, &Echo),
    }
}

// Asked again where memory is refused.
fn signers_at_last<'a>(
    alloc: Global,
    spelled: &SpelledItem<'a>,
) -> Result<Signers<'a>, AllocError> {
    match signers_of_item(alloc, spelled) {
        Ok(found) => Ok(found),
        Err(AllocError) => signers_of_item(alloc, spelled),
    }
}

fn are_signers(alloc: Global, spelled: &SpelledItem<'_>, wanted: &[u8]) -> Result<bool, TxFault> {
    let signers = signers_at_last(alloc, spelled)?;
    are_spelled(alloc, &signers, wanted)
}

// Whether the signers of the item of these bytes are these, one after another.
fn are_signers_of(alloc: Global, bytes: &[u8], wanted: &[u8]) -> Result<bool, TxFault> {
    let spelled = decode_item(alloc, BlockVersion::V2, bytes)?;
    are_signers(alloc, &spelled, wanted)
}

// The bytes of an item of this body with these endorsers, whose creator signs all before its signature.
fn signed_item(
    alloc: Global,
    body: &[u8],
    endorsements: &[(&[u8], bool)],
) -> Result<Vec<u8>, AllocError> {
    let message = endorsed_body(alloc, body, endorsements)?;
    let mut bytes = Vec::from_slice(alloc, &message)?;
    push_counted(&mut bytes, &message)?;
    Ok(bytes)
}

// Whether these have signed the item of this body.
pub(super) fn have_signed_item(
    alloc: Global,
    body: &[u8],
    endorsements: &[(&[u8], bool)],
    wanted: &[u8],
) -> Result<bool, TxFault> {
    let bytes = signed_item(alloc, body, endorsements)?;
    are_signers_of(alloc, &bytes, wanted)
}

// One endorsement of P0, by a signature of these bytes and of this identity's.
fn push_endorsement_of_p0(
    alloc: Global,
    bytes: &mut Vec<u8>,
    front: &[u8],
    identity: &[u8],
) -> Result<(), AllocError> {
    bytes.push(1)?;
    push_endorsement(alloc, bytes, P0, front, identity)?;
    push_counted(bytes, b"")
}

// Whether P0 is a signer of the update by such a signature.
fn is_signer_by(alloc: Global, front: &[u8], identity: &[u8]) -> Result<bool, TxFault> {
    let mut bytes = Vec::from_slice(alloc, update_body())?;
    push_endorsement_of_p0(alloc, &mut bytes, front, identity)?;
    are_signers_of(alloc, &bytes, P0)
}

// A body, how many of its first bytes are left out, the identity, and whether P0 is a signer by them.
fn parts() -> &'static [(&'static [u8], usize, &'static [u8], bool)] {
    &PARTS
}

static PARTS: [(&[u8], usize, &[u8], bool); 12] = [
    (UPDATE, 0, P0, true),
    (UPDATE, 0, P1, false),
    (UPDATE, 0, b"", false),
    (UPDATE, 1, P0, false),
    (UPDATE, 1, P1, false),
    (UPDATE, 1, b"", false),
    (b"", 0, P0, false),
    (b"", 0, P1, false),
    (b"", 0, b"", false),
    // A transaction's.
    (BODY, 0, P0, false),
    (BODY, 0, P1, false),
    (BODY, 0, b"", false),
];

#[test]
fn an_endorser_signs_the_body_and_its_own_bytes(rt: HostRuntime) -> Result<(), TxFault> {
    for (row, &(body, skipped, identity, is_signer)) in parts().iter().enumerate() {
        let front = body.get(skipped..).unwrap_or_default();
        assert!(rt;
            is_signer_by(rt.alloc(), front, identity)? == is_signer,
            "row {row}"
        );
    }
    Ok(())
}

// Whether the creator's signature is one of what the creator signs.
fn is_creators(spelled: &SpelledItem<'_>) -> bool {
    let message = spelled.creator_message();
    match spelled.item() {
        Item::Tx(tx) => Echo.verify(&tx.creator, message, tx.signature.as_slice()),
        Item::Update(update) => {
            Echo.verify(&update.creator, message, update.signature.as_slice())
        }
    }
}

fn is_signed_by_creator(alloc: Global, bytes: &[u8]) -> Result<bool, TxFault> {
    let spelled = decode_item(alloc, BlockVersion::V2, bytes)?;
    Ok(is_creators(&spelled))
}

// Puts this byte into the id, and answers whether it took the place of the id's own.
fn put_into_id(bytes: &mut [u8], new: u8) -> bool {
    match bytes.get_mut(10) {
        Some(byte) => {
            let was_of_id = *byte == 5;
            *byte = new;
            was_of_id
        }
        None => false,
    }
}

// Whether the creator's signature is one for the id with this byte in it, which is a 5 where it signs.
fn is_signed_for(alloc: Global, body: &[u8], id_byte: u8) -> Result<Option<bool>, TxFault> {
    let mut bytes = signed_item(alloc, body, &[(P0, true), (ADMIN, false)])?;
    if !put_into_id(&mut bytes, id_byte) {
        return Ok(None);
    }
    Ok(Some(is_signed_by_creator(alloc, &bytes)?))
}

#[test]
fn a_creator_signs_all_before_its_signature(rt: HostRuntime) -> Result<(), TxFault> {
    assert!(rt; is_signed_for(rt.alloc(), body(), 5)? == Some(true));
    assert!(rt; is_signed_for(rt.alloc(), body(), 6)? == Some(false));
    assert!(rt; is_signed_for(rt.alloc(), update_body(), 5)? == Some(true));
    assert!(rt; is_signed_for(rt.alloc(), update_body(), 6)? == Some(false));
    Ok(())
}
