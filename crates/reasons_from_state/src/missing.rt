//! Who is missing where signers don't satisfy a policy, and whether another order would do.
ghost use Rattle.std.specs.Prelude.{◌≡◌, ◌+◌, ◌≤◌, length, true, false, IfOk, MatchOption};
ghost use Rattle.std.specs.Option.{option_copied};
ghost use Rattle.policy.specs.Tree.{Trees, principal};
ghost use Rattle.policy.specs.View.{trees};
ghost use Rattle.policy_eval.specs.Evaluation.{none_used};
ghost use Rattle.policy_eval.specs.Evaluating.{evaluate, evaluate_all, is_satisfied};
ghost use Rattle.reasons.specs.Shortfall.{missing_from, first_missing, asks_any_role, is_wide, wide_of, wide_last, others_before};

use policy::{Expression, Node, Policy, PolicyRole, Principal};
use policy_eval::{Signers, take_signer};
use std::alloc::{AllocError, Global};
use transaction::{Identity, MAX_ENDORSEMENTS};
use values::Name;

/// What an expression answers, from the set used, and the principal that is missing where it isn't satisfied.
#[cycle(missing)]
fn missing_from<'p>(
    expression: &'p Expression,
    signers: &[Identity<'_>],
    used: &mut [bool],
) -> (bool, Option<&'p Principal>)
    requires { length used.old ≤ MAX_ENDORSEMENTS }
    ensures answer { evaluate expression.now signers.now used.old ≡ (result.0, used.new) }
    ensures missing { option_copied result.1 ≡ missing_from expression.now signers.now used.old }
{
    match &expression.node {
        Node::Signed(principal) => match take_signer(principal, signers, used) {
            Some(_) => (true, None),
            None => (false, Some(principal)),
        },
        Node::Gate { threshold, members } => {
            let mut saved = [false; MAX_ENDORSEMENTS];
            saved[..used.len()].copy_from_slice(used);
            let (count, first) = first_missing(members, signers, used);
            if *threshold as usize <= count {
                (true, None)
            } else {
                used.copy_from_slice(&saved[..used.len()]);
                (false, first)
            }
        }
    }
}

/// How many members answer yes, and who is missing in the first that answers no.
#[cycle(missing)]
fn first_missing<'p>(
    members: &'p [Expression],
    signers: &[Identity<'_>],
    used: &mut [bool],
) -> (usize, Option<&'p Principal>)
    requires { length used.old ≤ MAX_ENDORSEMENTS }
    ensures answers { evaluate_all (trees members.now) signers.now used.old ≡ (result.0, used.new) }
    ensures missing { option_copied result.1 ≡ first_missing (trees members.now) signers.now used.old }
{
    let mut count = 0;
    let mut first = None;
    for member in members {
        let (satisfied, missing) = missing_from(member, signers, used);
        if satisfied {
            count += 1;
        }
        if first.is_none() {
            first = missing;
        }
    }
    (count, first)
}

/// The principal that is missing, copied. One evaluation.
pub(crate) fn missing(
    alloc: Global,
    policy: &Policy,
    signers: &Signers<'_>,
) -> Result<Option<Principal>, AllocError>
    ensures { IfOk result (λ x. x ≡ missing_from policy.now signers.now (none_used signers.now)) }
{
    let mut used = [false; MAX_ENDORSEMENTS];
    let identities = signers.as_slice();
    let (_, missing) = missing_from(policy.root(), identities, &mut used[..identities.len()]);
    match missing {
        None => Ok(None),
        Some(principal) => Ok(Some(Principal {
            org: Name::from_slice(alloc, principal.org.as_slice())?,
            role: principal.role,
        })),
    }
}

/// The principal that an expression is, if each role fills it.
fn wide(expression: &Expression) -> Option<&Principal>
    ensures { MatchOption result (is_wide expression.now ≡ false) (λ p. (is_wide expression.now ≡ true) × (expression.now ≡ principal p.now.org p.now.role)) }
{
    match &expression.node {
        Node::Signed(principal) => match principal.role {
            PolicyRole::Member => Some(principal),
            PolicyRole::Admin | PolicyRole::Client | PolicyRole::Peer | PolicyRole::Orderer => None,
        },
        Node::Gate { .. } => None,
    }
}

/// How many wide members take a signer.
fn count_wide(members: &[Expression], signers: &[Identity<'_>], used: &mut [bool]) -> usize
    ensures { evaluate_all (wide_of (trees members.now)) signers.now used.old ≡ (result, used.new) }
{
    let mut count = 0;
    for member in members {
        let Some(principal) = wide(member) else {
            continue;
        };
        if take_signer(principal, signers, used).is_some() {
            count += 1;
        }
    }
    count
}

/// What an expression answers whose gates ask their wide principals last.
#[cycle(wide_last)]
fn holds_wide_last(expression: &Expression, signers: &[Identity<'_>], used: &mut [bool]) -> bool
    requires { length used.old ≤ MAX_ENDORSEMENTS }
    ensures { evaluate (wide_last expression.now) signers.now used.old ≡ (result, used.new) }
{
    match &expression.node {
        Node::Signed(principal) => take_signer(principal, signers, used).is_some(),
        Node::Gate { threshold, members } => {
            let mut saved = [false; MAX_ENDORSEMENTS];
            saved[..used.len()].copy_from_slice(used);
            let others = count_others(members, signers, used);
            let wide = count_wide(members, signers, used);
            if (*threshold as usize).saturating_sub(others) <= wide {
                true
            } else {
                used.copy_from_slice(&saved[..used.len()]);
                false
            }
        }
    }
}

/// How many of the members that aren't wide answer yes, each with its wide principals last.
#[cycle(wide_last)]
fn count_others(members: &[Expression], signers: &[Identity<'_>], used: &mut [bool]) -> usize
    requires { length used.old ≤ MAX_ENDORSEMENTS }
    ensures answers { (wide : Trees) → evaluate_all (others_before wide (trees members.now)) signers.now used.old
        ≡ (result + (evaluate_all wide signers.now used.new).0, (evaluate_all wide signers.now used.new).1) }
    ensures marks { length used.new ≡ length used.old }
{
    let mut count = 0;
    for member in members {
        if wide(member).is_some() {
            continue;
        }
        if holds_wide_last(member, signers, used) {
            count += 1;
        }
    }
    count
}

/// Whether the signers would satisfy the policy if each of its gates asked its wide principals last. One evaluation.
pub(crate) fn would_do_in_another_order(policy: &Policy, signers: &Signers<'_>) -> bool
    ensures { result ≡ is_satisfied (wide_last policy.now) signers.now }
{
    let mut used = [false; MAX_ENDORSEMENTS];
    let identities = signers.as_slice();
    holds_wide_last(policy.root(), identities, &mut used[..identities.len()])
}
