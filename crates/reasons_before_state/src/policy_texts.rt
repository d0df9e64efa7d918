//! Texts that are no policy.
ghost use Rattle.std.specs.Prelude.{◌≡◌, map, option_map, option_and_then, IfOk};
ghost use Rattle.std.specs.Result.{result_err};
ghost use Rattle.policy.specs.Meaning.{policy_or_fault};
ghost use Rattle.reasons.specs.First.{first_there};
ghost use Rattle.reasons.specs.Form.{text_fault, policy_fault};

use policy::{Policy, PolicyFault};
use reasons::{FormFault, PolicyTextFault};
use std::alloc::{AllocError, Global};
use transaction::PolicyWrite;
use values::NameRef;

/// Why the text is no policy, if it is none.
pub(crate) fn text_fault(alloc: Global, text: &[u8]) -> Result<Option<PolicyTextFault>, AllocError>
    ensures { IfOk result (λ fault. fault ≡ option_map text_fault (result_err (policy_or_fault text.now))) }
{
    match Policy::parse_bytes(alloc, text) {
        Ok(_policy) => Ok(None),
        Err(PolicyFault::Memory) => Err(AllocError),
        Err(PolicyFault::TooLarge) => Ok(Some(PolicyTextFault::TooLarge)),
        Err(PolicyFault::Syntax { .. }) => Ok(Some(PolicyTextFault::Syntax)),
        Err(PolicyFault::Role { .. }) => Ok(Some(PolicyTextFault::Role)),
        Err(PolicyFault::Threshold { .. }) => Ok(Some(PolicyTextFault::Threshold)),
        Err(PolicyFault::TooDeep { .. }) => Ok(Some(PolicyTextFault::TooDeep)),
    }
}

/// What is wrong with a policy that is written.
fn policy_fault(
    alloc: Global,
    namespace: &NameRef<'_>,
    write: &PolicyWrite<'_>,
) -> Result<Option<FormFault>, AllocError>
    ensures { IfOk result (λ fault. fault ≡ policy_fault namespace.now write.now) }
{
    let Some(text) = &write.policy else {
        return Ok(None);
    };
    let Some(fault) = text_fault(alloc, text.as_slice())? else {
        return Ok(None);
    };
    Ok(Some(FormFault::UnreadablePolicy {
        namespace: namespace.copy(alloc)?,
        key: write.key.copy(alloc)?,
        fault,
    }))
}

/// The first fault of the policies that are written in a namespace.
pub(crate) fn policies_fault(
    alloc: Global,
    namespace: &NameRef<'_>,
    writes: &[PolicyWrite<'_>],
) -> Result<Option<FormFault>, AllocError>
    ensures { IfOk result (λ fault. fault ≡ first_there (map (policy_fault namespace.now) writes.now)) }
{
    for write in writes {
        if let Some(fault) = policy_fault(alloc, namespace, write)? {
            return Ok(Some(fault));
        }
    }
    Ok(None)
}
