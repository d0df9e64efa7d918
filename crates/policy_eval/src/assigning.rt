ghost use Rattle.std.specs.Prelude.{◌≡◌, ◌≤◌, ◌<◌, ◌+◌, ◌^◌, ◌++◌, ◌↔◌, length, IfOk, IfSome, IsSome, OnOk, option_map};
ghost use Rattle.policy.specs.Tree.{leaves, all_leaves, principal};
ghost use Rattle.policy.specs.View.{trees};
ghost use Rattle.policy_eval.specs.Evaluation.{Satisfied};
ghost use Rattle.policy_eval.specs.Evaluating.{evaluate, evaluate_all};
ghost use Rattle.policy_eval.specs.Assignment.{assigned, assigned_all, assignment_of, IsAssignment};

use crate::evaluation::take_signer;
use crate::signer_list::Signers;
use policy::{Expression, Node, Policy, Principal};
use std::alloc::{AllocError, Global};
use transaction::{Identity, MAX_ENDORSEMENTS};

/// What an evaluation has assigned so far.
#[derive(Drop)]
struct Assigned {
    /// The number of the next principal.
    next: u32,
    pairs: Vec<(u32, u32)>,
}

fn assign_principal(
    wanted: &Principal,
    signers: &[Identity<'_>],
    used: &mut [bool],
    so_far: &mut Assigned,
) -> Result<bool, AllocError>
    requires signers { length signers.now ≤ MAX_ENDORSEMENTS }
    requires numbers { so_far.old.next + 1 < 2 ^ 32 }
    ensures value { IfOk result (λ answer. evaluate (principal wanted.now.org wanted.now.role) signers.now used.old ≡ (answer, used.new)) }
    ensures pairs { OnOk result (so_far.new.pairs.items ≡ so_far.old.pairs.items ++ assigned (principal wanted.now.org wanted.now.role) signers.now used.old so_far.old.next) }
    ensures next { OnOk result (so_far.new.next ≡ so_far.old.next + 1) }
{
    let number = so_far.next;
    so_far.next += 1;
    match take_signer(wanted, signers, used) {
        Some(place) => {
            so_far.pairs.push((number, place as u32))?;
            Ok(true)
        }
        None => Ok(false),
    }
}

#[cycle(assign)]
fn assign(
    expression: &Expression,
    signers: &[Identity<'_>],
    used: &mut [bool],
    so_far: &mut Assigned,
) -> Result<bool, AllocError>
    requires marks { length used.old ≤ MAX_ENDORSEMENTS }
    requires signers { length signers.now ≤ MAX_ENDORSEMENTS }
    requires numbers { so_far.old.next + leaves expression.now < 2 ^ 32 }
    ensures value { IfOk result (λ answer. evaluate expression.now signers.now used.old ≡ (answer, used.new)) }
    ensures pairs { OnOk result (so_far.new.pairs.items ≡ so_far.old.pairs.items ++ assigned expression.now signers.now used.old so_far.old.next) }
    ensures next { OnOk result (so_far.new.next ≡ so_far.old.next + leaves expression.now) }
{
    match &expression.node {
        Node::Signed(principal) => assign_principal(principal, signers, used, so_far),
        Node::Gate { threshold, members } => {
            let mut saved = [false; MAX_ENDORSEMENTS];
            saved[..used.len()].copy_from_slice(used);
            let kept = so_far.pairs.len();
            if *threshold as usize <= assign_members(members, signers, used, so_far)? {
                Ok(true)
            } else {
                used.copy_from_slice(&saved[..used.len()]);
                so_far.pairs.truncate(kept);
                Ok(false)
            }
        }
    }
}

/// How many of the members answer yes.
#[cycle(assign)]
fn assign_members(
    members: &[Expression],
    signers: &[Identity<'_>],
    used: &mut [bool],
    so_far: &mut Assigned,
) -> Result<usize, AllocError>
    requires marks { length used.old ≤ MAX_ENDORSEMENTS }
    requires signers { length signers.now ≤ MAX_ENDORSEMENTS }
    requires numbers { so_far.old.next + all_leaves (trees members.now) < 2 ^ 32 }
    ensures value { IfOk result (λ count. evaluate_all (trees members.now) signers.now used.old ≡ (count, used.new)) }
    ensures pairs { OnOk result (so_far.new.pairs.items ≡ so_far.old.pairs.items ++ assigned_all (trees members.now) signers.now used.old so_far.old.next) }
    ensures next { OnOk result (so_far.new.next ≡ so_far.old.next + all_leaves (trees members.now)) }
{
    let mut count = 0;
    for member in members {
        if assign(member, signers, used, so_far)? {
            count += 1;
        }
    }
    Ok(count)
}

/// Which signer each principal of a satisfied policy took, as pairs of the principal's number in the order of
/// the text, from 0, and the signer's place, in the order of the principals; none where the signers don't
/// satisfy the policy. A principal that took none, or lies in a gate that failed, has no pair.
///
/// One evaluation, with the cost of `satisfied`, and memory for the pairs, at most one for each signer.
pub fn assignment(
    alloc: Global,
    policy: &Policy,
    signers: &Signers<'_>,
) -> Result<Option<Vec<(u32, u32)>>, AllocError>
    ensures value { IfOk result (λ answer. option_map (λ pairs. pairs.items) answer ≡ assignment_of policy.now signers.now) }
    ensures served { IfOk result (λ answer. IfSome answer (λ pairs. IsAssignment policy.now signers.now pairs.items)) }
    ensures relation { IfOk result (λ answer. IsSome answer ↔ Satisfied policy.now signers.now) }
{
    let mut used = [false; MAX_ENDORSEMENTS];
    let identities = signers.as_slice();
    let mut assigned = Assigned {
        next: 0,
        pairs: Vec::new(alloc),
    };
    if assign(
        policy.root(),
        identities,
        &mut used[..identities.len()],
        &mut assigned,
    )? {
        Ok(Some(assigned.pairs))
    } else {
        Ok(None)
    }
}
