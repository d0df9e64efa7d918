//! What signers make of a policy.

use policy::{Policy, PolicyFault};
use policy_eval::{Signers, assignment, satisfied};
use std::alloc::{AllocError, Global};
use transaction::TxFault;

/// The answer that is wanted.
#[derive(Clone, Copy)]
pub enum Answer {
    Refused,
    /// Principals, each with the signer that it took.
    Pairs(&'static [(u32, u32)]),
    /// So many principals from this one on, with the signers in order.
    InOrder(u32, usize),
}

fn are_in_order(pairs: &[(u32, u32)], first: u32, count: usize) -> bool {
    let mut expected = (first, 0u32);
    for pair in pairs {
        if *pair != expected {
            return false;
        }
        expected = (expected.0.wrapping_add(1), expected.1.wrapping_add(1));
    }
    pairs.len() == count
}

fn are_pairs(pairs: &[(u32, u32)], wanted: Answer) -> bool {
    match wanted {
        Answer::Refused => false,
        Answer::Pairs(expected) => pairs == expected,
        Answer::InOrder(first, count) => are_in_order(pairs, first, count),
    }
}

// Asked again where memory is refused.
fn assignment_at_last(
    alloc: Global,
    policy: &Policy,
    signers: &Signers<'_>,
) -> Result<Option<Vec<(u32, u32)>>, AllocError> {
    match assignment(alloc, policy, signers) {
        Ok(pairs) => Ok(pairs),
        Err(AllocError) => assignment(alloc, policy, signers),
    }
}

fn is_assigned(
    alloc: Global,
    policy: &Policy,
    signers: &Signers<'_>,
    wanted: Answer,
) -> Result<bool, TxFault> {
    match assignment_at_last(alloc, policy, signers)? {
        None => Ok(matches!(wanted, Answer::Refused)),
        Some(pairs) => Ok(are_pairs(pairs.as_slice(), wanted)),
    }
}

/// Whether both calls answer so.
pub fn is_answered(
    alloc: Global,
    policy: &Policy,
    signers: &Signers<'_>,
    wanted: Answer,
) -> Result<bool, TxFault> {
    let is_held = !matches!(wanted, Answer::Refused);
    Ok(satisfied(policy, signers) == is_held && is_assigned(alloc, policy, signers, wanted)?)
}

/// Whether both calls answer so for the policy of this text. False where the text is no policy.
pub fn is_text_answered(
    alloc: Global,
    text: &str,
    signers: &Signers<'_>,
    wanted: Answer,
) -> Result<bool, TxFault> {
    match Policy::parse(alloc, text) {
        Ok(policy) => is_answered(alloc, &policy, signers, wanted),
        Err(PolicyFault::Memory) => Err(TxFault::Memory),
        Err(_) => Ok(false),
    }
}
