//! Whom a reason names: signers, and those whose signatures were refused.
ghost use Rattle.std.specs.Prelude.{◌≡◌, ◌++◌, length, IfOk, OnOk};
ghost use Rattle.std.specs.List.{flat_map};
ghost use Rattle.std.specs.Option.{option_copied};
ghost use Rattle.reason_lists.specs.Pooled.{identity_bytes, identity_at, identities_from, refused_by};

use crate::pooled::PooledIdentity;
use crate::pooling::put;
use reasons::{Reason, Shortfall};
use std::alloc::AllocError;
use transaction::{Identity, OwnedIdentity};
use verdicts::role_number;

/// Whose signatures were refused: the creator's, or endorsers'.
pub(crate) fn refused_by<'a>(
    reason: &'a Reason,
    shortfall: Option<&'a Shortfall>,
) -> &'a [OwnedIdentity]
    ensures { result.now ≡ refused_by reason.now (option_copied shortfall.entry) }
{
    if let Reason::BadSignature { creator } = reason {
        return std::slice::from_ref(creator);
    }
    match shortfall {
        Some(shortfall) => shortfall.refused.as_slice(),
        None => &[],
    }
}

fn put_identity(pool: &mut Vec<u8>, identity: &Identity<'_>) -> Result<PooledIdentity, AllocError>
    ensures identity { IfOk result (λ i. i ≡ identity_at (length pool.old.items) identity.now) }
    ensures pool { OnOk result (pool.new.items ≡ pool.old.items ++ identity_bytes identity.now) }
{
    let org = put(pool, identity.org.as_slice())?;
    let label = put(pool, identity.label.as_slice())?;
    Ok(PooledIdentity {
        org,
        label,
        role: role_number(identity.role),
    })
}

/// Puts one after the other.
pub(crate) fn put_identities(
    pool: &mut Vec<u8>,
    identities: &mut Vec<PooledIdentity>,
    named: &[OwnedIdentity],
) -> Result<(), AllocError>
    ensures identities { OnOk result (identities.new.items ≡ identities.old.items ++ identities_from (length pool.old.items) named.now) }
    ensures pool { OnOk result (pool.new.items ≡ pool.old.items ++ flat_map identity_bytes named.now) }
{
    for identity in named {
        let pooled = put_identity(pool, &identity.lend())?;
        identities.push(pooled)?;
    }
    Ok(())
}
