//! What policies require, which no other verdict changes.
ghost use Rattle.std.specs.Prelude.{◌≡◌};
ghost use Rattle.std.specs.Option.{option_and_then, option_copied};
ghost use Rattle.std.specs.FinMap.{get};
ghost use Rattle.rules.specs.State.{policy_in};
ghost use Rattle.rules.specs.Endorsement as rule;

use key_chains::{Job, StateKey};
use policy::Policy;
use policy_eval::{Signers, satisfied};
use rules::Row;

/// Whether there is a policy, and the signers satisfy it.
pub fn meets(signers: &Signers<'_>, policy: Option<&Policy>) -> bool
    ensures { result ≡ rule.meets signers.now (option_copied policy.entry) }
{
    match policy {
        None => false,
        Some(policy) => satisfied(policy, signers),
    }
}

/// The policy that a row has of its own.
fn policy_of<'a>(row: Option<&'a Row>) -> Option<&'a Policy>
    ensures { option_copied result ≡ option_and_then (λ row. row.policy) (option_copied row.entry) }
{
    match row {
        None => None,
        Some(row) => match &row.policy {
            None => None,
            Some(own) => Some(own.get()),
        },
    }
}

/// The policy that a key has of its own before the block.
pub fn own_policy<'a>(job: &Job<'a, '_>, key: &StateKey<'_>) -> Option<&'a Policy>
    ensures { option_copied result ≡ policy_in job.now.state key.now }
{
    policy_of(job.row(key))
}

/// The policy that governs a key whose row before the block this is: the row's own, otherwise the key's namespace's.
pub(crate) fn governing_over<'a>(
    job: &Job<'a, '_>,
    key: &StateKey<'_>,
    row: Option<&'a Row>,
) -> Option<&'a Policy>
    requires { option_copied row ≡ get job.now.state key.now }
    ensures { option_copied result ≡ rule.governing job.now.definitions key.now.0 (policy_in job.now.state key.now) }
{
    match policy_of(row) {
        Some(own) => Some(own),
        None => job.definition(&key.namespace()),
    }
}

/// The policy that governs a key: its own before the block, otherwise its namespace's.
pub fn governing<'a>(job: &Job<'a, '_>, key: &StateKey<'_>) -> Option<&'a Policy>
    ensures { option_copied result ≡ rule.governing job.now.definitions key.now.0 (policy_in job.now.state key.now) }
{
    governing_over(job, key, job.row(key))
}
