//! Why updates aren't valid, as bytes.

use reasons::{Reason, UpdateFault};
use std::alloc::{AllocError, Global};
use transaction::{OwnedIdentity, Role};

fn role_word(role: Role) -> &'static [u8] {
    match role {
        Role::Admin => b".admin.",
        Role::Client => b".client.",
        Role::Peer => b".peer.",
        Role::Orderer => b".orderer.",
    }
}

fn put_signer(told: &mut Vec<u8>, signer: &OwnedIdentity) -> Result<(), AllocError> {
    let signer = signer.lend();
    told.push(b' ')?;
    told.extend_from_slice(signer.org.as_slice())?;
    told.extend_from_slice(role_word(signer.role))?;
    told.extend_from_slice(signer.label.as_slice())
}

// A policy and who signed.
fn put_unsatisfied(
    told: &mut Vec<u8>,
    policy: &str,
    signers: &[OwnedIdentity],
) -> Result<(), AllocError> {
    told.extend_from_slice(policy.as_bytes())?;
    told.extend_from_slice(b" by")?;
    for signer in signers {
        put_signer(told, signer)?;
    }
    Ok(())
}

fn put_fault(alloc: Global, told: &mut Vec<u8>, fault: &UpdateFault) -> Result<(), AllocError> {
    match fault {
        UpdateFault::NotAlone => told.extend_from_slice(b"not alone"),
        UpdateFault::NoAdminPolicy => told.extend_from_slice(b"no admin"),
        UpdateFault::NoDefinition { chaincode } => {
            told.extend_from_slice(b"no definition of ")?;
            told.extend_from_slice(chaincode.as_slice())
        }
        UpdateFault::NoPolicy(fault) => {
            let text = format!(in alloc; "no policy: {fault:?}")?;
            told.extend_from_slice(text.as_bytes())
        }
        UpdateFault::AdminUnsatisfied(shortfall) => {
            let text = shortfall.policy.text(alloc)?;
            put_unsatisfied(told, text.as_str(), shortfall.signers.as_slice())
        }
    }
}

fn is_fault(alloc: Global, fault: &UpdateFault, wanted: &[u8]) -> Result<bool, AllocError> {
    let mut told = Vec::new(alloc);
    put_fault(alloc, &mut told, fault)?;
    Ok(told.as_slice() == wanted)
}

/// Whether the updates among the reasons have these faults.
pub fn have_faults(
    alloc: Global,
    reasons: &[Reason],
    faults: &[&[u8]],
) -> Result<bool, AllocError> {
    let mut left = faults.iter();
    for reason in reasons {
        if let Reason::InvalidUpdate(fault) = reason {
            let Some(wanted) = left.next() else {
                return Ok(false);
            };
            if !is_fault(alloc, fault, wanted)? {
                return Ok(false);
            }
        }
    }
    Ok(left.next().is_none())
}
