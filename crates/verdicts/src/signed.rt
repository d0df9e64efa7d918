ghost use Rattle.std.specs.Prelude.{◌≡◌};
ghost use Rattle.transaction.specs.Grammar.{role_byte};
ghost use Rattle.transaction.specs.declared.identity.Identity.{Identity};
ghost use Rattle.verdicts.specs.Said.{piece};
ghost use Rattle.verdicts.specs.Tags.{tag_of};

use crate::verdict::{Verdict, bytes_at};
use transaction::{Identity, Role};

/// A signature and all that it is verified by, lent from a pool or from who asks. Only the tag is hashed, the signature's last four bytes:
/// of those that are accepted few have the same, however long their messages are.
#[derive(Clone, Copy, PartialEq, Eq)]
#[derive_where(Hash)]
pub(crate) struct Signed<'a> {
    tag: u32,
    #[derive_where(skip(Hash))]
    pub(crate) signature: &'a [u8],
    #[derive_where(skip(Hash))]
    pub(crate) role: u8,
    #[derive_where(skip(Hash))]
    pub(crate) org: &'a [u8],
    #[derive_where(skip(Hash))]
    pub(crate) label: &'a [u8],
    #[derive_where(skip(Hash))]
    pub(crate) message: &'a [u8],
    ghost tagged: { tag ≡ tag_of signature.now },
}

/// The last four bytes as a number, of shorter ones 0.
fn tag_of(signature: &[u8]) -> u32
    ensures { result ≡ tag_of signature.now }
{
    let len = signature.len();
    if len < 4 {
        return 0;
    }
    signature[len - 4] as u32 * 16_777_216
        + signature[len - 3] as u32 * 65_536
        + signature[len - 2] as u32 * 256
        + signature[len - 1] as u32
}

/// The number of a role in a verdict, as in the bytes of an identity: 0 to 3.
pub fn role_number(role: Role) -> u8
    ensures { result ≡ role_byte role }
{
    match role {
        Role::Admin => 0,
        Role::Client => 1,
        Role::Peer => 2,
        Role::Orderer => 3,
    }
}

/// What a verdict is about.
pub(crate) fn signed_in<'a>(pool: &'a [u8], verdict: &Verdict) -> Signed<'a>
    ensures signature { result.signature.now ≡ piece pool.now verdict.now.signature }
    ensures role { result.role ≡ verdict.now.role }
    ensures org { result.org.now ≡ piece pool.now verdict.now.org }
    ensures label { result.label.now ≡ piece pool.now verdict.now.label }
    ensures message { result.message.now ≡ piece pool.now verdict.now.message }
{
    let signature = bytes_at(pool, verdict.signature);
    Signed {
        tag: tag_of(signature),
        signature,
        role: verdict.role,
        org: bytes_at(pool, verdict.org),
        label: bytes_at(pool, verdict.label),
        message: bytes_at(pool, verdict.message),
    }
}

/// What a verifier is asked about.
pub(crate) fn signed_by<'a>(
    identity: &Identity<'a>,
    message: &'a [u8],
    signature: &'a [u8],
) -> Signed<'a>
    ensures signature { result.signature.now ≡ signature.now }
    ensures role { result.role ≡ role_byte identity.now.role }
    ensures org { result.org.now ≡ identity.now.org }
    ensures label { result.label.now ≡ identity.now.label }
    ensures message { result.message.now ≡ message.now }
{
    Signed {
        tag: tag_of(signature),
        signature,
        role: role_number(identity.role),
        org: identity.org.as_slice(),
        label: identity.label.as_slice(),
        message,
    }
}
