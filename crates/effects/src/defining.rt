//! The definitions that the valid updates of a block give.
ghost use Rattle.std.specs.Prelude.{[], if◌then◌else◌, ◌≡◌, ◌<◌, ◌+◌, ◌++◌, length, Some, IfOk, OnOk};
ghost use Rattle.policy.specs.Meaning.{policy_of};
ghost use Rattle.rules.specs.Delta.{definitions_in};
ghost use Rattle.rules.specs.Flags.{is_valid};
ghost use Rattle.rules.specs.Fold as fold;
ghost use Rattle.rules.specs.Fold.{definitions_to};
ghost use Rattle.rules.specs.Job.{definitions_by};
ghost use Rattle.candidates.specs.Seen.{seen};

use candidates::{Candidate, OpenUpdate};
use key_chains::Job;
use rules::{Flag, NewDefinition};
use std::alloc::{AllocError, Global};
use values::Shared;

/// The definition that an update gives.
fn definition_of(alloc: Global, open_update: &OpenUpdate<'_>) -> Result<NewDefinition, AllocError>
    ensures chaincode { IfOk result (λ d. d.chaincode ≡ open_update.now.update.namespace) }
    ensures policy { IfOk result (λ d. policy_of open_update.now.update.policy ≡ Some d.policy) }
{
    let chaincode = open_update.update.namespace.copy(alloc)?;
    let policy = open_update.policy.copy(alloc)?;
    Ok(NewDefinition {
        chaincode,
        policy: Shared::new(alloc, policy)?,
    })
}

/// Adds the definition that a candidate with this flag gives.
fn add_definition(
    alloc: Global,
    definitions: &mut Vec<NewDefinition>,
    candidate: &Candidate<'_>,
    flag: Flag,
) -> Result<(), AllocError>
    ensures { OnOk result (definitions_in definitions.new.items ≡ definitions_in definitions.old.items ++ (if is_valid flag then definitions_by (seen candidate.now) else [])) }
{
    if !flag.is_valid() {
        return Ok(());
    }
    match candidate {
        Candidate::Flagged(_) => Ok(()),
        Candidate::Opened(_) => Ok(()),
        Candidate::Updates(open_update) => {
            definitions.push(definition_of(alloc, open_update)?)?;
            Ok(())
        }
    }
}

/// Takes candidate i, whose flag this is.
fn take(
    alloc: Global,
    definitions: &mut Vec<NewDefinition>,
    job: &Job<'_, '_>,
    i: u32,
    flag: Flag,
) -> Result<(), AllocError>
    requires place { i < length job.now.candidates }
    requires flag { flag ≡ fold.flag job.now i }
    ensures { OnOk result (definitions_in definitions.old.items ≡ definitions_to job.now i → definitions_in definitions.new.items ≡ definitions_to job.now (i + 1)) }
{
    add_definition(alloc, definitions, job.candidate(i), flag)
}

/// The definitions that the valid updates of a job give, if these are its flags. A copy of each name and policy.
pub(crate) fn definitions_of(
    alloc: Global,
    job: &Job<'_, '_>,
    flags: &[Flag],
) -> Result<Vec<NewDefinition>, AllocError>
    requires { flags.now ≡ fold.flags job.now }
    ensures { IfOk result (λ ds. definitions_in ds.items ≡ definitions_to job.now (length job.now.candidates)) }
{
    let mut definitions = Vec::new(alloc);
    for i in 0..job.len() {
        take(alloc, &mut definitions, job, i, flags[i as usize])?;
    }
    Ok(definitions)
}
