//! The endorsements that chaincodes' policies require, and that transactions are missing.
ghost use Rattle.std.specs.Prelude.{◌≡◌, ◌++◌, ◌∷◌, [], OnOk, IfOk, IsTrue, option_map};
ghost use Rattle.policy.specs.Token.{role_name, named};
ghost use Rattle.values.specs.Key.{is_key};
ghost use Rattle.conflicts.specs.Lack.{principal_text, lack, lack_of, lacks_of, endorsement_lack};
ghost use Rattle.conflicts.specs.Tally.{found_lack};

use crate::conflict::Conflict;
use crate::conflict_key::ConflictKey;
use crate::kind::Kind;
use policy::{PolicyRole, Principal};
use reasons::{EndorsementFault, PolicyOwner, Reason};
use std::alloc::{AllocError, Global};
use values::{KeyRef, Name, NameRef};

fn role_name(role: PolicyRole) -> &'static str
    ensures { result.now ≡ role_name role }
{
    match role {
        PolicyRole::Member => "member",
        PolicyRole::Admin => "admin",
        PolicyRole::Client => "client",
        PolicyRole::Peer => "peer",
        PolicyRole::Orderer => "orderer",
    }
}

// `ORG.ROLE`
fn spelled(alloc: Global, principal: &Principal) -> Result<Vec<u8>, AllocError>
    ensures text { IfOk result (λ text. text.items ≡ named principal.now.org principal.now.role) }
    ensures key { IfOk result (λ text. IsTrue (is_key text.items)) }
{
    let mut text = Vec::from_slice(alloc, principal.org.as_slice())?;
    text.push(b'.')?;
    text.extend_from_slice(role_name(principal.role).as_bytes())?;
    Ok(text)
}

fn principal_text(alloc: Global, missing: &Option<Principal>) -> Result<Vec<u8>, AllocError>
    ensures text { IfOk result (λ text. text.items ≡ principal_text missing.now) }
    ensures key { IfOk result (λ text. IsTrue (is_key text.items)) }
{
    match missing {
        Some(principal) => spelled(alloc, principal),
        None => Vec::from_slice(alloc, b"-"),
    }
}

// A chaincode, and who is missing, both borrowed.
#[derive(Drop)]
struct FoundLack<'a> {
    chaincode: NameRef<'a>,
    missing: &'a Option<Principal>,
}

fn found_in_endorsements(fault: &EndorsementFault) -> Option<FoundLack<'_>>
    ensures { option_map found_lack result ≡ endorsement_lack fault.now }
{
    match fault {
        EndorsementFault::Touched { .. } => None,
        EndorsementFault::Unsatisfied {
            namespace,
            owner,
            shortfall,
            ..
        } => match owner {
            PolicyOwner::OfKey => None,
            PolicyOwner::OfChaincode => Some(FoundLack {
                chaincode: namespace.lend(),
                missing: &shortfall.missing,
            }),
        },
        EndorsementFault::ChaincodeUnsatisfied {
            chaincode,
            shortfall,
        } => Some(FoundLack {
            chaincode: chaincode.lend(),
            missing: &shortfall.missing,
        }),
    }
}

fn found_in(reason: &Reason) -> Option<FoundLack<'_>>
    ensures { option_map found_lack result ≡ lack_of reason.now }
{
    match reason {
        Reason::NotEndorsed(fault) => found_in_endorsements(fault),
        _ => None,
    }
}

// Copies the chaincode's name, and writes the principal as text.
fn copied(alloc: Global, found: &FoundLack<'_>) -> Result<Conflict, AllocError>
    ensures { IfOk result (λ c. c ≡ found_lack found.now) }
{
    let text = principal_text(alloc, found.missing)?;
    Ok(Conflict {
        key: ConflictKey::copied(alloc, &found.chaincode, &KeyRef::new(text.as_slice()))?,
        kind: Kind::OwnPolicy,
        in_block: false,
    })
}

fn push_lack(alloc: Global, lacks: &mut Vec<Conflict>, reason: &Reason) -> Result<(), AllocError>
    ensures { OnOk result (lacks.new.items ≡ lacks.old.items ++ lacks_of (reason.now ∷ [])) }
{
    if let Some(found) = found_in(reason) {
        lacks.push(copied(alloc, &found)?)?;
    }
    Ok(())
}

/// The endorsements that transactions with these reasons are missing, in order. Copies each name.
pub(crate) fn lacks_of(alloc: Global, reasons: &[Reason]) -> Result<Vec<Conflict>, AllocError>
    ensures { IfOk result (λ lacks. lacks.items ≡ lacks_of reasons.now) }
{
    let mut lacks = Vec::new(alloc);
    for reason in reasons {
        push_lack(alloc, &mut lacks, reason)?;
    }
    Ok(lacks)
}
