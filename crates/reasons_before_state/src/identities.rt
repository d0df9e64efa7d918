//! Identities that a reason names.
ghost use Rattle.std.specs.Prelude.{◌≡◌, IfOk};

use std::alloc::{AllocError, Global};
use transaction::{Identity, OwnedIdentity};

/// The identity, copied. Linear in its bytes, and memory for them.
pub fn owned_identity(alloc: Global, identity: &Identity<'_>) -> Result<OwnedIdentity, AllocError>
    ensures { IfOk result (λ owned. owned ≡ identity.now) }
{
    Ok(OwnedIdentity::new(
        identity.org.copy(alloc)?,
        identity.role,
        identity.label.copy(alloc)?,
    ))
}
