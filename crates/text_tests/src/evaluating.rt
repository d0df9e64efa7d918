//! Expected values were worked out by hand from the definitions.

use policy_eval::{Signers, Verify, signers};
use std::alloc::{AllocError, Global};
use transaction::{EncodeFault, Identity, SpelledTx, TxFault, append_identity, decode_tx};

mod answers;
mod calls;
mod limits;
mod policies;
mod signing;
mod updates;

// Spelled identities: organization, role, label.
const P0: &[u8] = b"\x04Org1\x02\x02p0";

const P1: &[u8] = b"\x04Org1\x02\x02p1";

const ADMIN: &[u8] = b"\x04Org1\0\x01a";

// A signature is the message itself.
struct Echo;

impl Verify for Echo {
    ghost use Rattle.std.specs.Str.{bytes_eq};

    ghost accepts = { λ _ _ message signature. bytes_eq message signature };

    fn verify(&self, _identity: &Identity<'_>, message: &[u8], signature: &[u8]) -> bool {
        message == signature
    }
}

fn body() -> &'static [u8] {
    BODY
}

// Channel `ch`, creator `Org1:client:c0`, nonce `n1`, chaincode `cc`, no namespaces.
const BODY: &[u8] = b"\x02ch\
    \x05\x05\x05\x05\x05\x05\x05\x05\x05\x05\x05\x05\x05\x05\x05\x05\x05\x05\x05\x05\x05\x05\x05\x05\x05\x05\x05\x05\x05\x05\x05\x05\
    \x05\x05\x05\x05\x05\x05\x05\x05\x05\x05\x05\x05\x05\x05\x05\x05\x05\x05\x05\x05\x05\x05\x05\x05\x05\x05\x05\x05\x05\x05\x05\x05\
    \x04Org1\x01\x02c0\x02n1\x02cc\0\0";

// The bytes behind their number, in two bytes.
fn push_counted(bytes: &mut Vec<u8>, field: &[u8]) -> Result<(), AllocError> {
    let [.., high, low] = field.len().to_be_bytes();
    bytes.extend_from_slice(&[high, low])?;
    bytes.extend_from_slice(field)
}

// The identity with its signature, which is of these bytes and of those behind them.
fn push_endorsement(
    alloc: Global,
    bytes: &mut Vec<u8>,
    identity: &[u8],
    front: &[u8],
    behind: &[u8],
) -> Result<(), AllocError> {
    let signature = [front, behind].concat(alloc)?;
    bytes.extend_from_slice(identity)?;
    push_counted(bytes, &signature)
}

// The number of endorsers, and each with its signature of this body and of its own bytes, or with none where that is to be
// refused.
fn push_endorsements(
    alloc: Global,
    bytes: &mut Vec<u8>,
    body: &[u8],
    endorsements: &[(&[u8], bool)],
) -> Result<(), AllocError> {
    let [.., count] = endorsements.len().to_be_bytes();
    bytes.push(count)?;
    for &(identity, is_good) in endorsements {
        let (front, behind) = if is_good {
            (body, identity)
        } else {
            (b"".as_slice(), b"".as_slice())
        };
        push_endorsement(alloc, bytes, identity, front, behind)?;
    }
    Ok(())
}

// This body with these endorsers, and whether the signature of each is good: what the creator signs.
fn endorsed_body(
    alloc: Global,
    body: &[u8],
    endorsements: &[(&[u8], bool)],
) -> Result<Vec<u8>, AllocError> {
    let mut bytes = Vec::from_slice(alloc, body)?;
    push_endorsements(alloc, &mut bytes, body, endorsements)?;
    Ok(bytes)
}

// The bytes of a transaction with these endorsers, and whether the signature of each is good.
fn endorsed(alloc: Global, endorsements: &[(&[u8], bool)]) -> Result<Vec<u8>, AllocError> {
    let mut bytes = endorsed_body(alloc, body(), endorsements)?;
    push_counted(&mut bytes, b"")?;
    Ok(bytes)
}

// Asked again where memory is refused.
fn signers_at_last<'a>(alloc: Global, spelled: &SpelledTx<'a>) -> Result<Signers<'a>, AllocError> {
    match signers(alloc, spelled.tx(), &Echo) {
        Ok(found) => Ok(found),
        Err(AllocError) => signers(alloc, spelled.tx(), &Echo),
    }
}

// The signers of the transaction of these bytes.
fn signers_of(alloc: Global, bytes: &[u8]) -> Result<Signers<'_>, TxFault> {
    let spelled = decode_tx(alloc, bytes)?;
    match signers_at_last(alloc, &spelled) {
        Ok(found) => Ok(found),
        Err(AllocError) => Err(TxFault::Memory),
    }
}

// The identities' bytes, one after another.
fn spellings(alloc: Global, signers: &Signers<'_>) -> Result<Vec<u8>, EncodeFault> {
    let mut bytes = Vec::new(alloc);
    for signer in signers.as_slice() {
        append_identity(&mut bytes, signer)?;
    }
    Ok(bytes)
}

// Whether the identities are these, one after another.
fn are_spelled(alloc: Global, signers: &Signers<'_>, wanted: &[u8]) -> Result<bool, TxFault> {
    match spellings(alloc, signers) {
        Ok(bytes) => Ok(bytes.as_slice() == wanted),
        Err(EncodeFault::TooLarge) => Ok(false),
        Err(EncodeFault::Memory) => Err(TxFault::Memory),
    }
}
