//! What the state has at a key, and what a write leaves of it.
ghost use Rattle.std.specs.Prelude.{◌≡◌, IfOk, option_map, option_and_then};
ghost use Rattle.std.specs.Option.{option_copied};

use policy::Policy;
use std::alloc::AllocError;
use transaction::Version;
use values::{Part, Shared};

/// What the state has at a key.
#[derive(Drop)]
pub struct Row {
    /// Mostly a part of the bytes of the block that wrote it.
    pub value: Part,
    /// The place of the transaction that wrote the row last, its value or its policy.
    pub version: Version,
    /// The key's own policy, if it has one.
    pub policy: Option<Shared<Policy>>,
}

/// One more owner of a policy, if there is one. Takes no memory.
pub fn share_policy(policy: &Option<Shared<Policy>>) -> Result<Option<Shared<Policy>>, AllocError>
    ensures { IfOk result (λ shared. shared ≡ policy.now) }
{
    match policy {
        None => Ok(None),
        Some(policy) => Ok(Some(policy.share()?)),
    }
}

/// The policy that stays where none is written: that of the row, if there is one. Takes no memory.
pub fn policy_kept(row: Option<&Row>) -> Result<Option<Shared<Policy>>, AllocError>
    ensures { IfOk result (λ policy. policy ≡ option_and_then (λ r. r.policy) (option_copied row.entry)) }
{
    match row {
        None => Ok(None),
        Some(row) => share_policy(&row.policy),
    }
}

/// The row once more, if there is one: its value and its policy get one more owner. Takes no memory.
pub fn share_row(row: Option<&Row>) -> Result<Option<Row>, AllocError>
    ensures { IfOk result (λ shared. shared ≡ option_copied row.entry) }
{
    match row {
        None => Ok(None),
        Some(row) => Ok(Some(Row {
            value: row.value.share()?,
            version: row.version,
            policy: share_policy(&row.policy)?,
        })),
    }
}

/// The row whose policy alone is written: the value stays, and without a row there is none. Takes no memory.
pub fn with_policy(
    version: Version,
    policy: Option<Shared<Policy>>,
    row: Option<&Row>,
) -> Result<Option<Row>, AllocError>
    ensures { IfOk result (λ after. after ≡ option_map (λ r. record { value = r.value; version = version; policy = policy }) (option_copied row.entry)) }
{
    match row {
        None => Ok(None),
        Some(row) => Ok(Some(Row {
            value: row.value.share()?,
            version,
            policy,
        })),
    }
}
