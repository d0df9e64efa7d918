//! The bytes that a reason names, put into a pool.
ghost use Rattle.std.specs.Prelude.{◌≡◌, ◌++◌, length, IfOk, OnOk};
ghost use Rattle.std.specs.Option.{option_copied};
ghost use Rattle.reason_lists.specs.Shortfalls.{policy_in, missing_in, missing_org};
ghost use Rattle.reason_lists.specs.Pooled.{id_in, place_bytes, text_bytes, with_places, with_texts};

use crate::places::Places;
use crate::pooled::PooledReason;
use crate::shortfalls::{missing_in, missing_org};
use reasons::{Reason, Shortfall};
use std::alloc::{AllocError, Global};
use verdicts::Piece;

pub(crate) fn put(pool: &mut Vec<u8>, bytes: &[u8]) -> Result<Piece, AllocError>
    ensures piece { IfOk result (λ p. p ≡ record { at = length pool.old.items; len = length bytes.now }) }
    ensures pool { OnOk result (pool.new.items ≡ pool.old.items ++ bytes.now) }
{
    let at = pool.len();
    pool.extend_from_slice(bytes)?;
    Ok(Piece {
        at,
        len: bytes.len(),
    })
}

/// Puts name, key, start and end.
pub(crate) fn put_places(
    pool: &mut Vec<u8>,
    places: &Places<'_>,
    said: PooledReason,
) -> Result<PooledReason, AllocError>
    ensures reason { IfOk result (λ r. r ≡ with_places (length pool.old.items) places.now said) }
    ensures pool { OnOk result (pool.new.items ≡ pool.old.items ++ place_bytes places.now) }
{
    let name = put(pool, places.name.as_slice())?;
    let key = put(pool, places.key.as_slice())?;
    let start = put(pool, places.start.as_slice())?;
    let end = put(pool, places.end.as_slice())?;
    Ok(PooledReason {
        name,
        key,
        start,
        end,
        ..said
    })
}

fn id_in(reason: &Reason) -> &[u8]
    ensures { result.now ≡ id_in reason.now }
{
    match reason {
        Reason::OtherId { wanted } => wanted.as_slice(),
        _ => &[],
    }
}

fn put_policy(
    alloc: Global,
    pool: &mut Vec<u8>,
    shortfall: Option<&Shortfall>,
) -> Result<Piece, AllocError>
    ensures piece { IfOk result (λ p. p ≡ record { at = length pool.old.items; len = length (policy_in (option_copied shortfall.entry)) }) }
    ensures pool { OnOk result (pool.new.items ≡ pool.old.items ++ policy_in (option_copied shortfall.entry)) }
{
    let Some(shortfall) = shortfall else {
        return put(pool, &[]);
    };
    let text = shortfall.policy.text(alloc)?;
    put(pool, text.as_str().as_bytes())
}

/// Puts the wanted id, the policy's text and the missing principal's organization.
pub(crate) fn put_texts(
    alloc: Global,
    pool: &mut Vec<u8>,
    reason: &Reason,
    shortfall: Option<&Shortfall>,
    said: PooledReason,
) -> Result<PooledReason, AllocError>
    ensures reason { IfOk result (λ r. r ≡ with_texts (length pool.old.items) reason.now (option_copied shortfall.entry) said) }
    ensures pool { OnOk result (pool.new.items ≡ pool.old.items ++ text_bytes reason.now (option_copied shortfall.entry)) }
{
    let id = put(pool, id_in(reason))?;
    let policy = put_policy(alloc, pool, shortfall)?;
    let missing_org = put(pool, missing_org(missing_in(shortfall)))?;
    Ok(PooledReason {
        id,
        policy,
        missing_org,
        ..said
    })
}
