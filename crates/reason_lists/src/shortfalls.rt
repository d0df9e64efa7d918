//! What signers lack, where a reason says that they don't satisfy a policy.
ghost use Rattle.std.specs.Prelude.{◌≡◌};
ghost use Rattle.std.specs.Option.{option_copied};
ghost use Rattle.reason_lists.specs.Shortfalls.{update_shortfall, endorsement_shortfall, shortfall_in, signers_in, missing_in, missing_org, role_number, missing_role, would_reorder};

use policy::{PolicyRole, Principal};
use reasons::{EndorsementFault, Reason, Shortfall, UpdateFault};
use transaction::OwnedIdentity;

fn update_shortfall(fault: &UpdateFault) -> Option<&Shortfall>
    ensures { option_copied result ≡ update_shortfall fault.now }
{
    match fault {
        UpdateFault::AdminUnsatisfied(shortfall) => Some(shortfall),
        _ => None,
    }
}

fn endorsement_shortfall(fault: &EndorsementFault) -> Option<&Shortfall>
    ensures { option_copied result ≡ endorsement_shortfall fault.now }
{
    match fault {
        EndorsementFault::Touched { .. } => None,
        EndorsementFault::Unsatisfied { shortfall, .. } => Some(shortfall),
        EndorsementFault::ChaincodeUnsatisfied { shortfall, .. } => Some(shortfall),
    }
}

/// What the signers lack, if that is why.
pub(crate) fn shortfall_in(reason: &Reason) -> Option<&Shortfall>
    ensures { option_copied result ≡ shortfall_in reason.now }
{
    match reason {
        Reason::InvalidUpdate(fault) => update_shortfall(fault),
        Reason::NotEndorsed(fault) => endorsement_shortfall(fault),
        _ => None,
    }
}

pub(crate) fn signers_in<'a>(shortfall: Option<&'a Shortfall>) -> &'a [OwnedIdentity]
    ensures { result.now ≡ signers_in (option_copied shortfall.entry) }
{
    match shortfall {
        Some(shortfall) => shortfall.signers.as_slice(),
        None => &[],
    }
}

pub(crate) fn missing_in<'a>(shortfall: Option<&'a Shortfall>) -> Option<&'a Principal>
    ensures { option_copied result ≡ missing_in (option_copied shortfall.entry) }
{
    match shortfall {
        Some(shortfall) => shortfall.missing.as_ref(),
        None => None,
    }
}

/// The missing principal's organization; no bytes where none is missing.
pub(crate) fn missing_org<'a>(missing: Option<&'a Principal>) -> &'a [u8]
    ensures { result.now ≡ missing_org (option_copied missing.entry) }
{
    match missing {
        Some(principal) => principal.org.as_slice(),
        None => &[],
    }
}

fn role_number(role: PolicyRole) -> u8
    ensures { result ≡ role_number role }
{
    match role {
        PolicyRole::Admin => 0,
        PolicyRole::Client => 1,
        PolicyRole::Peer => 2,
        PolicyRole::Orderer => 3,
        PolicyRole::Member => 4,
    }
}

/// The missing principal's role; 0 where none is missing.
pub(crate) fn missing_role(missing: Option<&Principal>) -> u8
    ensures { result ≡ missing_role (option_copied missing.entry) }
{
    match missing {
        Some(principal) => role_number(principal.role),
        None => 0,
    }
}

/// Whether the same signers would do in another order of the policy's members.
pub(crate) fn would_reorder(shortfall: Option<&Shortfall>) -> bool
    ensures { result ≡ would_reorder (option_copied shortfall.entry) }
{
    match shortfall {
        Some(shortfall) => shortfall.another_order,
        None => false,
    }
}
