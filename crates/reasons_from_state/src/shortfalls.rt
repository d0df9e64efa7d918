//! What signers lack who don't satisfy a policy.
ghost use Rattle.std.specs.Prelude.{◌≡◌, IfOk};
ghost use Rattle.std.specs.List.{list_any};
ghost use Rattle.transaction.specs.Same.{is_same_identity};
ghost use Rattle.reasons.specs.Shortfall.{refused_of, shortfall_of};

use crate::identity_copies::copied;
use crate::missing::{missing, would_do_in_another_order};
use policy::Policy;
use policy_eval::Signers;
use reasons::Shortfall;
use std::alloc::{AllocError, Global};
use transaction::{Endorsement, Identity};

fn is_among(identities: &[Identity<'_>], identity: &Identity<'_>) -> bool
    ensures { result ≡ list_any (λ other. is_same_identity other identity.now) identities.now }
{
    identities.iter().any(|other| other.is_same(identity))
}

/// The endorsers that aren't signers, each once.
fn refused<'a>(
    alloc: Global,
    endorsements: &[Endorsement<'a>],
    signers: &Signers<'_>,
) -> Result<Vec<Identity<'a>>, AllocError>
    ensures { IfOk result (λ refused. refused.items ≡ refused_of endorsements.now signers.now) }
{
    let mut refused: Vec<Identity<'a>> = Vec::new(alloc);
    for endorsement in endorsements {
        let endorser = &endorsement.endorser;
        if is_among(signers.as_slice(), endorser) || is_among(refused.as_slice(), endorser) {
            continue;
        }
        refused.push(endorser.reborrow())?;
    }
    Ok(refused)
}

/// What the signers of these endorsements lack. Two evaluations of the policy, and memory for what is named.
pub(crate) fn shortfall(
    alloc: Global,
    policy: &Policy,
    endorsements: &[Endorsement<'_>],
    signers: &Signers<'_>,
) -> Result<Shortfall, AllocError>
    ensures { IfOk result (λ x. x ≡ shortfall_of endorsements.now signers.now policy.now) }
{
    let refused = refused(alloc, endorsements, signers)?;
    Ok(Shortfall {
        policy: policy.copy(alloc)?,
        signers: copied(alloc, signers.as_slice())?,
        refused: copied(alloc, refused.as_slice())?,
        missing: missing(alloc, policy, signers)?,
        another_order: would_do_in_another_order(policy, signers),
    })
}
