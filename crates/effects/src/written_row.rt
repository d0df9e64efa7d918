//! The row that the writes of one key leave.
ghost use Rattle.std.specs.Prelude.{◌≡◌, None, IfOk};
ghost use Rattle.std.specs.Option.{option_copied};
ghost use Rattle.effects.specs.WrittenRow.{policy_beside, row_by_parts};

use policy::Policy;
use rules::{Row, policy_kept, share_policy, share_row, with_policy};
use std::alloc::AllocError;
use transaction::Version;
use values::Shared;

/// The policy for a written value.
pub(crate) fn policy_beside(
    written: &Option<Option<Shared<Policy>>>,
    row: Option<&Row>,
) -> Result<Option<Shared<Policy>>, AllocError>
    ensures { IfOk result (λ policy. policy ≡ policy_beside written.now (option_copied row.entry)) }
{
    match written {
        None => policy_kept(row),
        Some(policy) => share_policy(policy),
    }
}

/// The row if the value isn't written: with the policy that is, if one is. Its contents are shared, not copied. Takes
/// no memory.
pub(crate) fn row_beside(
    version: Version,
    policy: &Option<Option<Shared<Policy>>>,
    row: Option<&Row>,
) -> Result<Option<Row>, AllocError>
    ensures { IfOk result (λ after. after ≡ row_by_parts version None policy.now (option_copied row.entry)) }
{
    match policy {
        Some(policy) => with_policy(version, share_policy(policy)?, row),
        None => share_row(row),
    }
}
