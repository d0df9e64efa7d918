//! What a ledger is asked.
ghost use Rattle.std.specs.Prelude.{◌≡◌};
ghost use Rattle.c_calls.specs.Asked.{HeightTold, RowTold, KeyPolicyTold, BlockTold, FlagsTold, DefinitionTold, UseTold};
ghost use Rattle.c_calls.specs.Past.{PastTold};
ghost use Rattle.c_calls.specs.Scanned.{ScanTold};

use c_calls::{FoundRow, FoundUse, HistorySizes, PastWrite, Receipt, ScanSizes, ScannedRow};
use c_handle::Handle;
use std::alloc::Global;

/// [`c_calls::fabcommit_height`].
#[unsafe(no_mangle)]
pub extern "C" fn fabcommit_height(alloc: Global, handle: &mut Handle, height: &mut u64) -> u32
    ensures same { handle.new.held.value ≡ handle.old.held.value }
    ensures told { HeightTold handle.old.held.value height.old height.new result }
{
    c_calls::fabcommit_height(alloc, handle, height)
}

/// [`c_calls::fabcommit_get`].
#[unsafe(no_mangle)]
pub extern "C" fn fabcommit_get(
    alloc: Global,
    handle: &mut Handle,
    namespace: &[u8],
    row_key: &[u8],
    row: &mut FoundRow,
    value: &mut [u8],
) -> u32
    ensures same { handle.new.held.value ≡ handle.old.held.value }
    ensures told { RowTold handle.old.held.value namespace.now row_key.now row.old row.new value.old value.new result }
{
    c_calls::fabcommit_get(alloc, handle, namespace, row_key, row, value)
}

/// [`c_calls::fabcommit_key_policy`].
#[unsafe(no_mangle)]
pub extern "C" fn fabcommit_key_policy(
    alloc: Global,
    handle: &mut Handle,
    namespace: &[u8],
    row_key: &[u8],
    text: &mut [u8],
    len: &mut usize,
) -> u32
    ensures same { handle.new.held.value ≡ handle.old.held.value }
    ensures told { KeyPolicyTold handle.old.held.value namespace.now row_key.now text.old text.new len.old len.new result }
{
    c_calls::fabcommit_key_policy(alloc, handle, namespace, row_key, text, len)
}

/// [`c_calls::fabcommit_block`].
#[unsafe(no_mangle)]
pub extern "C" fn fabcommit_block(
    alloc: Global,
    handle: &mut Handle,
    number: u64,
    receipt: &mut Receipt,
) -> u32
    ensures same { handle.new.held.value ≡ handle.old.held.value }
    ensures told { BlockTold handle.old.held.value number receipt.old receipt.new result }
{
    c_calls::fabcommit_block(alloc, handle, number, receipt)
}

/// [`c_calls::fabcommit_flags`].
#[unsafe(no_mangle)]
pub extern "C" fn fabcommit_flags(
    alloc: Global,
    handle: &mut Handle,
    number: u64,
    flags: &mut [u8],
    len: &mut usize,
) -> u32
    ensures same { handle.new.held.value ≡ handle.old.held.value }
    ensures told { FlagsTold handle.old.held.value number flags.old flags.new len.old len.new result }
{
    c_calls::fabcommit_flags(alloc, handle, number, flags, len)
}

/// [`c_calls::fabcommit_definition`].
#[unsafe(no_mangle)]
pub extern "C" fn fabcommit_definition(
    alloc: Global,
    handle: &mut Handle,
    chaincode: &[u8],
    text: &mut [u8],
    len: &mut usize,
) -> u32
    ensures same { handle.new.held.value ≡ handle.old.held.value }
    ensures told { DefinitionTold handle.old.held.value chaincode.now text.old text.new len.old len.new result }
{
    c_calls::fabcommit_definition(alloc, handle, chaincode, text, len)
}

/// [`c_calls::fabcommit_first_use`].
#[unsafe(no_mangle)]
pub extern "C" fn fabcommit_first_use(
    alloc: Global,
    handle: &mut Handle,
    id: &[u8],
    first: &mut FoundUse,
) -> u32
    ensures same { handle.new.held.value ≡ handle.old.held.value }
    ensures told { UseTold handle.old.held.value id.now first.old first.new result }
{
    c_calls::fabcommit_first_use(alloc, handle, id, first)
}

/// [`c_calls::fabcommit_scan`].
#[unsafe(no_mangle)]
pub extern "C" fn fabcommit_scan(
    alloc: Global,
    handle: &mut Handle,
    namespace: &[u8],
    start: &[u8],
    end: &[u8],
    pool: &mut [u8],
    rows: &mut [ScannedRow],
    sizes: &mut ScanSizes,
) -> u32
    ensures same { handle.new.held.value ≡ handle.old.held.value }
    ensures told { ScanTold handle.old.held.value namespace.now start.now end.now pool.old pool.new rows.old rows.new sizes.old sizes.new result }
{
    c_calls::fabcommit_scan(alloc, handle, namespace, start, end, pool, rows, sizes)
}

/// [`c_calls::fabcommit_history`].
#[unsafe(no_mangle)]
pub extern "C" fn fabcommit_history(
    alloc: Global,
    handle: &mut Handle,
    namespace: &[u8],
    row_key: &[u8],
    pool: &mut [u8],
    writes: &mut [PastWrite],
    sizes: &mut HistorySizes,
) -> u32
    ensures same { handle.new.held.value ≡ handle.old.held.value }
    ensures told { PastTold handle.old.held.value namespace.now row_key.now pool.old pool.new writes.old writes.new sizes.old sizes.new result }
{
    c_calls::fabcommit_history(alloc, handle, namespace, row_key, pool, writes, sizes)
}
