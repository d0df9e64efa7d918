//! Parts of the bytes that spell a transaction or an update, cut out by the lengths of their fields.

ghost use Rattle.std.specs.Prelude.{◌≡◌, ◌≤◌, ◌++◌, ℕ, List, length, flat_map};
ghost use Rattle.transaction.specs.Limits.{max_tx_bytes};
ghost use Rattle.transaction.specs.Grammar.{counted, listed, identity_bytes, endorsement_bytes};
ghost use Rattle.transaction.specs.Cuts.{EndsIn, HasBehind};

use crate::identity::Identity;
use crate::transaction::Endorsement;
use values::Slice;

/// What stands before a signature at the end. Constant time.
pub(crate) fn before_signature<'a>(bytes: &'a [u8], signature: &Slice<'_>) -> &'a [u8]
    requires { EndsIn (counted 2 signature.now) bytes.now }
    ensures { (front : List ℕ) → bytes.now ≡ front ++ counted 2 signature.now → result.now ≡ front }
{
    &bytes[..bytes.len() - 2 - signature.len()]
}

/// How many bytes spell these endorsements, without their count.
fn endorsements_len(endorsements: &[Endorsement<'_>]) -> usize
    requires { length (flat_map endorsement_bytes endorsements.now) ≤ max_tx_bytes }
    ensures { result ≡ length (flat_map endorsement_bytes endorsements.now) }
{
    let mut len = 0;
    for endorsement in endorsements {
        len += endorsement.endorser.bytes_len() + 2 + endorsement.signature.len();
    }
    len
}

/// What stands before endorsements at the end. Linear in their number.
pub(crate) fn before_endorsements<'a>(bytes: &'a [u8], endorsements: &[Endorsement<'_>]) -> &'a [u8]
    requires ending { EndsIn (listed 1 endorsement_bytes endorsements.now) bytes.now }
    requires short { length bytes.now ≤ max_tx_bytes }
    ensures { (front : List ℕ) → bytes.now ≡ front ++ listed 1 endorsement_bytes endorsements.now → result.now ≡ front }
{
    let behind = 1 + endorsements_len(endorsements);
    &bytes[..bytes.len() - behind]
}

/// The identity's bytes, which stand there. Constant time.
pub(crate) fn identity_behind<'a>(
    bytes: &'a [u8],
    start: usize,
    identity: &Identity<'_>,
) -> &'a [u8]
    requires { HasBehind start (identity_bytes identity.now) bytes.now }
    ensures { result.now ≡ identity_bytes identity.now }
{
    &bytes[start..start + identity.bytes_len()]
}
