//! Ledgers are opened and closed.
ghost use Rattle.std.specs.Prelude.{◌≡◌, ◌≢◌, None, Some};
ghost use Rattle.c_handle.specs.declared.kept.Kept.{Kept};
ghost use Rattle.c_calls.specs.Opened.{IsOpened, IsNotOpened};
ghost use Rattle.c_calls.specs.Shared.{SharedBy};

use c_calls::{INTERFACE, OK, Versions};
use c_handle::Handle;
use std::alloc::Global;

/// [`c_calls::fabcommit_versions`].
#[unsafe(no_mangle)]
pub extern "C" fn fabcommit_versions(versions: &mut Versions)
    ensures { versions.new ≡ record { interface = INTERFACE; first_block = 1; last_block = 2 } }
{
    c_calls::fabcommit_versions(versions)
}

/// [`c_calls::fabcommit_open`].
#[unsafe(no_mangle)]
pub extern "C" fn fabcommit_open(
    alloc: Global,
    handle: &mut Handle,
    channel: &[u8],
    keys: &[u8],
) -> u32
    ensures opened { result ≡ OK → (kept : Kept) × (handle.new.held.value ≡ Some kept) × IsOpened channel.now keys.now kept }
    ensures not_opened { result ≢ OK → IsNotOpened channel.now keys.now result × (handle.new.held.value ≡ handle.old.held.value) }
{
    c_calls::fabcommit_open(alloc, handle, channel, keys)
}

/// [`c_calls::fabcommit_close`].
#[unsafe(no_mangle)]
pub extern "C" fn fabcommit_close(alloc: Global, handle: &mut Handle)
    ensures { handle.new.held.value ≡ None }
{
    c_calls::fabcommit_close(alloc, handle)
}

/// [`c_calls::fabcommit_share`].
#[unsafe(no_mangle)]
pub extern "C" fn fabcommit_share(alloc: Global, handle: &mut Handle, other: &mut Handle) -> u32
    ensures same { handle.new.held.value ≡ handle.old.held.value }
    ensures told { SharedBy handle.old.held.value other.old.held.value other.new.held.value result }
{
    c_calls::fabcommit_share(alloc, handle, other)
}
