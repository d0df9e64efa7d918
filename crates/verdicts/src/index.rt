//! The signatures that verdicts accept, found by a hash.
ghost use Rattle.std.specs.Prelude.{◌≡◌, ℕ, List, ◌||◌, IfOk, OnOk};
ghost use Rattle.transaction.specs.declared.identity.Identity.{Identity};
ghost use Rattle.verdicts.specs.Said.{says};
ghost use Rattle.verdicts.specs.Index.{is_this, is_in, AnswerAlike};

use crate::signed::{Signed, signed_by, signed_in};
use crate::verdict::Verdict;
use std::alloc::{AllocError, Global};
use std::collections::HashSet;
use transaction::Identity;

fn put<'a>(accepted: &mut HashSet<Signed<'a>>, signed: Signed<'a>) -> Result<(), AllocError>
    ensures { OnOk result ((identity : Identity) (message signature : List ℕ)
        → is_in accepted.new.keys identity message signature ≡ (is_in accepted.old.keys identity message signature || is_this signed.entry identity message signature)) }
{
    accepted.insert(signed)?;
    Ok(())
}

/// Puts in what a verdict is on if it accepts it.
fn add<'a>(
    accepted: &mut HashSet<Signed<'a>>,
    pool: &'a [u8],
    verdict: &Verdict,
) -> Result<(), AllocError>
    ensures { OnOk result ((identity : Identity) (message signature : List ℕ)
        → is_in accepted.new.keys identity message signature ≡ (is_in accepted.old.keys identity message signature || says pool.now verdict.now identity message signature)) }
{
    if verdict.accepted {
        put(accepted, signed_in(pool, verdict))
    } else {
        Ok(())
    }
}

/// Those that verdicts accept. Linear in the verdicts and in the bytes that accepted ones name; memory for a reference to each.
pub(crate) fn accepted_ones<'a>(
    alloc: Global,
    pool: &'a [u8],
    verdicts: &[Verdict],
) -> Result<HashSet<Signed<'a>>, AllocError>
    ensures { IfOk result (λ accepted. AnswerAlike accepted.keys pool.now verdicts.now) }
{
    let mut accepted = HashSet::with_capacity(alloc, verdicts.len())?;
    for verdict in verdicts {
        add(&mut accepted, pool, verdict)?;
    }
    Ok(accepted)
}

/// Whether it is among them. Linear in the bytes that are asked about, but for others that are accepted by the same bytes of a signature.
pub(crate) fn is_accepted<'a>(
    accepted: &HashSet<Signed<'a>>,
    identity: &Identity<'a>,
    message: &'a [u8],
    signature: &'a [u8],
) -> bool
    ensures { result ≡ is_in accepted.now.keys identity.now message.now signature.now }
{
    accepted.contains(&signed_by(identity, message, signature))
}
