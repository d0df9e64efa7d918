//! Reasons of updates that the admin policy decides.
ghost use Rattle.std.specs.Prelude.{◌≡◌, ◌<◌, Some, length, IfOk};
ghost use Rattle.rules.specs.Candidate.{updates};
ghost use Rattle.rules.specs.Job.{candidate_at};
ghost use Rattle.rules.specs.Fold.{flag};
ghost use Rattle.reasons.specs.declared.reason.Reason.TheVariants.{InvalidUpdate};
ghost use Rattle.reasons.specs.declared.update_fault.UpdateFault.TheVariants.{AdminUnsatisfied};
ghost use Rattle.reasons.specs.Shortfall.{shortfall_of};
ghost use Rattle.key_chains.specs.Shown.{Shows};
ghost use Rattle.reasons_from_state.specs.Told.{IsTheReason};

use crate::place::Place;
use crate::shortfalls::shortfall;
use crate::verdicts::has_passed;
use candidates::OpenUpdate;
use key_chains::PlainBoard;
use policy::Policy;
use policy_eval::Signers;
use reasons::{Reason, UpdateFault, each_place_has_one_reason};
use std::alloc::{AllocError, Global};
use transaction::Endorsement;

fn admin_unsatisfied(
    alloc: Global,
    policy: &Policy,
    endorsements: &[Endorsement<'_>],
    signers: &Signers<'_>,
) -> Result<Option<Reason>, AllocError>
    ensures { IfOk result (λ x. x ≡ Some (InvalidUpdate (AdminUnsatisfied (shortfall_of endorsements.now signers.now policy.now)))) }
{
    let lack = shortfall(alloc, policy, endorsements, signers)?;
    Ok(Some(Reason::InvalidUpdate(UpdateFault::AdminUnsatisfied(lack))))
}

/// Why the open update at this place has its flag.
pub(crate) fn update_reason(
    alloc: Global,
    at: &Place<'_>,
    open_update: &OpenUpdate<'_>,
    board: &PlainBoard,
) -> Result<Option<Reason>, AllocError>
    requires place { at.now.i < length at.now.job.now.candidates }
    requires shown { Shows at.now.job.now board.now }
    requires opened { candidate_at at.now.job.now at.now.i ≡ updates open_update.now.update open_update.now.signers }
    ensures { IfOk result (λ x. IsTheReason at.now.job.now at.now.i (flag at.now.job.now at.now.i) x) }
{
    each_place_has_one_reason();
    if has_passed(at.job, at.i, board) {
        return Ok(Some(Reason::NoFault));
    }
    let endorsements = open_update.update.endorsements.as_slice();
    match at.job.admin() {
        None => Ok(None),
        Some(policy) => admin_unsatisfied(alloc, policy, endorsements, &open_update.signers),
    }
}
