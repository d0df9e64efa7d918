//! Identities that a reason names.
ghost use Rattle.std.specs.Prelude.{◌≡◌, IfOk};

use reasons_before_state::owned_identity;
use std::alloc::{AllocError, Global};
use transaction::{Identity, OwnedIdentity};
use values::Items;

pub(crate) fn copied(
    alloc: Global,
    identities: &[Identity<'_>],
) -> Result<Items<OwnedIdentity>, AllocError>
    ensures { IfOk result (λ copied. copied ≡ identities.now) }
{
    let mut copied = Vec::with_capacity(alloc, identities.len())?;
    for identity in identities {
        copied.push(owned_identity(alloc, identity)?)?;
    }
    Ok(Items::from_vec(copied))
}
