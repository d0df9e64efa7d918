ghost use Rattle.std.specs.Prelude.{◌≡◌, ◌≤◌, ◌<◌, ◌↔◌, List, length, IsTrue, IfSome, IsNone, slice_set, cond, is_some, nat_le};
ghost use Rattle.policy.specs.View.{trees};
ghost use Rattle.policy_eval.specs.Evaluation.{fills, satisfies, first_free, Satisfied};
ghost use Rattle.policy_eval.specs.Evaluating.{evaluate, evaluate_all, is_satisfied, taken};

use crate::signer_list::Signers;
use policy::{Expression, Node, Policy, PolicyRole, Principal};
use transaction::{Identity, MAX_ENDORSEMENTS, Role};

fn fills(wanted: PolicyRole, held: Role) -> bool
    ensures { result ≡ fills wanted held }
{
    match (wanted, held) {
        (PolicyRole::Member, _) => true,
        (PolicyRole::Admin, Role::Admin) => true,
        (PolicyRole::Client, Role::Client) => true,
        (PolicyRole::Peer, Role::Peer) => true,
        (PolicyRole::Orderer, Role::Orderer) => true,
        _ => false,
    }
}

fn satisfies(principal: &Principal, identity: &Identity<'_>) -> bool
    ensures { result ≡ satisfies principal.now.org principal.now.role identity.now }
{
    principal.org.lend().is_same(&identity.org) && fills(principal.role, identity.role)
}

fn first_free(principal: &Principal, signers: &[Identity<'_>], used: &[bool]) -> Option<usize>
    ensures place { result ≡ first_free principal.now.org principal.now.role signers.now used.now }
    ensures inside { IfSome result (λ place. (place < length used.now) × (place < length signers.now)) }
{
    signers
        .iter()
        .zip(used.iter())
        .position(|(signer, used)| !*used && satisfies(principal, signer))
}

/// Marks the first signer that satisfies the principal of those without a mark, and gives its place; none where there
/// is none. The marks stand at the signers' places. At most one comparison for each signer.
pub fn take_signer(
    principal: &Principal,
    signers: &[Identity<'_>],
    used: &mut [bool],
) -> Option<usize>
    ensures place { result ≡ first_free principal.now.org principal.now.role signers.now used.old }
    ensures marks { taken used.old result ≡ (is_some result, used.new) }
    ensures inside { IfSome result (λ place. place < length signers.now) }
{
    let place = first_free(principal, signers, used)?;
    used[place] = true;
    Some(place)
}

#[cycle(evaluate)]
fn evaluate(expression: &Expression, signers: &[Identity<'_>], used: &mut [bool]) -> bool
    requires { length used.old ≤ MAX_ENDORSEMENTS }
    ensures { evaluate expression.now signers.now used.old ≡ (result, used.new) }
{
    match &expression.node {
        Node::Signed(principal) => take_signer(principal, signers, used).is_some(),
        Node::Gate { threshold, members } => {
            let mut saved = [false; MAX_ENDORSEMENTS];
            saved[..used.len()].copy_from_slice(used);
            if are_enough(*threshold as usize, members, signers, used) {
                true
            } else {
                used.copy_from_slice(&saved[..used.len()]);
                false
            }
        }
    }
}

// Whether so many of the members answer yes. Each is tried, also once enough did.
#[cycle(evaluate)]
fn are_enough(
    threshold: usize,
    members: &[Expression],
    signers: &[Identity<'_>],
    used: &mut [bool],
) -> bool
    requires { length used.old ≤ MAX_ENDORSEMENTS }
    ensures answer { result ≡ nat_le threshold (evaluate_all (trees members.now) signers.now used.old).0 }
    ensures marks { used.new ≡ (evaluate_all (trees members.now) signers.now used.old).1 }
{
    let mut count = 0;
    for member in members {
        if evaluate(member, signers, used) {
            count += 1;
        }
    }
    threshold <= count
}

/// Whether the signers satisfy the policy (Fabric documentation, 'Endorsement policies'). The order is ours: from left
/// to right, each principal takes the first signer left that satisfies it, and a gate that fails gives back what its
/// members took.
///
/// At most as many steps as the policy's principals times the signers, each a comparison of an identity with
/// a principal, and for each gate a copy of the marks of used signers. No memory is asked for; recursion is
/// two frames for each nested gate, with 64 bytes of marks.
pub fn satisfied(policy: &Policy, signers: &Signers<'_>) -> bool
    ensures value { result ≡ is_satisfied policy.now signers.now }
    ensures relation { IsTrue result ↔ Satisfied policy.now signers.now }
{
    let mut used = [false; MAX_ENDORSEMENTS];
    let identities = signers.as_slice();
    evaluate(policy.root(), identities, &mut used[..identities.len()])
}
