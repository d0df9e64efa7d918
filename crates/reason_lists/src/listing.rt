//! Reasons as records, and the bytes that these name.
ghost use Rattle.std.specs.Prelude.{◌≡◌, ◌++◌, length, IfOk, OnOk};
ghost use Rattle.reason_lists.specs.Pooled.{reason_bytes, reason_at, with_identities, reason_identities, identity_list_bytes, pooled_bytes, pooled_reason, identities_of, AreListed};

use crate::identities::{put_identities, refused_by};
use crate::places::places_in;
use crate::pooled::{PooledIdentity, PooledReason};
use crate::pooling::{put_places, put_texts};
use crate::saying::numbers;
use crate::shortfalls::{shortfall_in, signers_in};
use reasons::Reason;
use std::alloc::{AllocError, Global};
use values::{Bytes, Items};

/// The reasons of a block of this number, in order, the identities that they name, and the pool that all pieces are of.
#[derive(Drop)]
pub struct ListedReasons {
    pub number: u64,
    pub pool: Bytes,
    pub reasons: Items<PooledReason>,
    pub identities: Items<PooledIdentity>,
}

/// Puts what a reason names beside identities.
fn put_reason(
    alloc: Global,
    pool: &mut Vec<u8>,
    number: u64,
    reason: &Reason,
) -> Result<PooledReason, AllocError>
    ensures reason { IfOk result (λ r. r ≡ reason_at number (length pool.old.items) reason.now) }
    ensures pool { OnOk result (pool.new.items ≡ pool.old.items ++ reason_bytes reason.now) }
{
    let shortfall = shortfall_in(reason);
    let said = numbers(number, reason, shortfall);
    let placed = put_places(pool, &places_in(reason), said)?;
    put_texts(alloc, pool, reason, shortfall, placed)
}

/// Puts the identities that a reason names, and tells where they begin and how many they are.
fn put_named(
    pool: &mut Vec<u8>,
    identities: &mut Vec<PooledIdentity>,
    reason: &Reason,
    said: PooledReason,
) -> Result<PooledReason, AllocError>
    ensures reason { IfOk result (λ r. r ≡ with_identities (length identities.old.items) reason.now said) }
    ensures identities { OnOk result (identities.new.items ≡ identities.old.items ++ reason_identities (length pool.old.items) reason.now) }
    ensures pool { OnOk result (pool.new.items ≡ pool.old.items ++ identity_list_bytes reason.now) }
{
    let shortfall = shortfall_in(reason);
    let (signers, refused) = (signers_in(shortfall), refused_by(reason, shortfall));
    let first_identity = identities.len();
    put_identities(pool, identities, signers)?;
    put_identities(pool, identities, refused)?;
    Ok(PooledReason {
        first_identity,
        signers: signers.len(),
        refused: refused.len(),
        ..said
    })
}

fn list_reason(
    alloc: Global,
    pool: &mut Vec<u8>,
    identities: &mut Vec<PooledIdentity>,
    number: u64,
    reason: &Reason,
) -> Result<PooledReason, AllocError>
    ensures reason { IfOk result (λ r. r ≡ pooled_reason number (length pool.old.items) (length identities.old.items) reason.now) }
    ensures identities { OnOk result (identities.new.items ≡ identities.old.items ++ identities_of (length pool.old.items) reason.now) }
    ensures pool { OnOk result (pool.new.items ≡ pool.old.items ++ pooled_bytes reason.now) }
{
    let said = put_reason(alloc, pool, number, reason)?;
    put_named(pool, identities, reason, said)
}

/// The reasons of a block of this number as records. Linear in the bytes that they name and in the policies' texts, which are copied.
pub fn list_reasons(
    alloc: Global,
    number: u64,
    reasons: &[Reason],
) -> Result<ListedReasons, AllocError>
    ensures { IfOk result (AreListed number reasons.now) }
{
    let mut pool = Vec::new(alloc);
    let mut identities = Vec::new(alloc);
    let mut listed = Vec::with_capacity(alloc, reasons.len())?;
    for reason in reasons {
        let pooled = list_reason(alloc, &mut pool, &mut identities, number, reason)?;
        listed.push(pooled)?;
    }
    Ok(ListedReasons {
        number,
        pool: Bytes::from_vec(pool),
        reasons: Items::from_vec(listed),
        identities: Items::from_vec(identities),
    })
}
