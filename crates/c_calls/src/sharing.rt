//! Handles share a ledger, so that threads may query it at the same time.
ghost use Rattle.std.specs.Prelude.{◌≡◌, ◌≢◌, None, Some, IfOk};
ghost use Rattle.c_handle.specs.declared.kept.Kept.{Kept};
ghost use Rattle.c_calls.specs.Shared.{SharedBy};

use crate::codes::{CLOSED, MEMORY, OK};
use c_handle::{Handle, Kept};
use std::alloc::{AllocError, Global};

fn share(kept: &Kept) -> Result<Kept, AllocError>
    ensures { IfOk result (λ shared. shared ≡ kept.now) }
{
    Ok(Kept {
        ledger: kept.ledger.share()?,
        keys: kept.keys.share()?,
    })
}

fn shared(alloc: Global, kept: &Kept) -> Result<Box<Kept>, AllocError>
    ensures { IfOk result (λ shared. shared.value ≡ kept.now) }
{
    match Box::new(alloc, share(kept)?) {
        Ok(boxed) => Ok(boxed),
        Err(_) => Err(AllocError),
    }
}

fn share_with(alloc: Global, kept: &Kept, other: &mut Handle) -> u32
    ensures shared { result ≡ OK → other.new.held.value ≡ Some kept.now }
    ensures not_shared { result ≢ OK → (result ≡ MEMORY) × (other.new.held.value ≡ other.old.held.value) }
{
    match shared(alloc, kept) {
        Ok(boxed) => {
            other.put(boxed);
            OK
        }
        Err(_) => MEMORY,
    }
}

/// Makes another handle share the ledger and the keys. What that one held is closed, unless this fails. While two handles
/// hold a ledger each may query it from a thread of its own, and `fabcommit_submit` returns `SHARED`.
pub fn fabcommit_share(alloc: Global, handle: &mut Handle, other: &mut Handle) -> u32
    ensures same { handle.new.held.value ≡ handle.old.held.value }
    ensures told { SharedBy handle.old.held.value other.old.held.value other.new.held.value result }
{
    let Some(kept) = handle.take(alloc) else {
        return CLOSED;
    };
    let code = share_with(alloc, &kept, other);
    handle.put(kept);
    code
}
