//! What the ledger of a handle is asked. No call changes it.
ghost use Rattle.std.specs.Prelude.{◌≡◌, ◌&&◌};
ghost use Rattle.std.specs.Bool.{MatchBool};
ghost use Rattle.std.specs.Option.{option_copied};
ghost use Rattle.rules.specs.Answers.{row_answer, block_answer};
ghost use Rattle.values.specs.Name as name;
ghost use Rattle.values.specs.Key as key;
ghost use Rattle.c_calls.specs.Asked.{HeightTold, RowGiven, RowTold, NoRow, BlockGiven, BlockTold, FlagsGiven, FlagsTold};

use crate::buffers::{fill, fill_flags};
use crate::codes::{CLOSED, NO_NAME, NONE, OK};
use crate::receipt::{Receipt, tell_block};
use c_handle::{Handle, Kept};
use rules::{CommittedBlock, Row};
use std::alloc::Global;
use values::{KeyRef, NameRef, is_key, is_name};

/// Tells the number of the next block.
pub fn fabcommit_height(alloc: Global, handle: &mut Handle, height: &mut u64) -> u32
    ensures same { handle.new.held.value ≡ handle.old.held.value }
    ensures told { HeightTold handle.old.held.value height.old height.new result }
{
    let Some(kept) = handle.take(alloc) else {
        return CLOSED;
    };
    *height = kept.ledger.get().view().height();
    handle.put(kept);
    OK
}

/// Where a row was written last, and how long its value is.
#[repr(C)]
#[derive(Clone, Copy)]
pub struct FoundRow {
    pub block: u64,
    pub tx: u32,
    pub len: usize,
}

fn tell_row(found: Option<&Row>, row: &mut FoundRow, value: &mut [u8]) -> u32
    ensures { RowGiven (option_copied found.entry) row.old row.new value.old value.new result }
{
    let Some(found) = found else {
        return NONE;
    };
    row.block = found.version.block;
    row.tx = found.version.tx;
    fill(value, found.value.as_slice(), &mut row.len)
}

fn get(kept: &Kept, namespace: &[u8], row_key: &[u8], row: &mut FoundRow, value: &mut [u8]) -> u32
    ensures { MatchBool (name.is_name namespace.now && key.is_key row_key.now)
        (RowGiven (row_answer kept.now.ledger.world (namespace.now, row_key.now)) row.old row.new value.old value.new result)
        (NoRow NO_NAME row.old row.new value.old value.new result) }
{
    if !is_name(namespace) || !is_key(row_key) {
        return NO_NAME;
    }
    let (namespace, row_key) = (NameRef::new(namespace), KeyRef::new(row_key));
    tell_row(
        kept.ledger.get().view().row(&namespace, &row_key),
        row,
        value,
    )
}

/// Tells the row of a key, and its value.
pub fn fabcommit_get(
    alloc: Global,
    handle: &mut Handle,
    namespace: &[u8],
    row_key: &[u8],
    row: &mut FoundRow,
    value: &mut [u8],
) -> u32
    ensures same { handle.new.held.value ≡ handle.old.held.value }
    ensures told { RowTold handle.old.held.value namespace.now row_key.now row.old row.new value.old value.new result }
{
    let Some(kept) = handle.take(alloc) else {
        return CLOSED;
    };
    let code = get(&kept, namespace, row_key, row, value);
    handle.put(kept);
    code
}

fn give_block(found: Option<&CommittedBlock>, number: u64, receipt: &mut Receipt) -> u32
    ensures { BlockGiven (option_copied found.entry) number receipt.old receipt.new result }
{
    let Some(block) = found else {
        return NONE;
    };
    tell_block(receipt, number, block);
    OK
}

/// Tells what `fabcommit_submit` told of an accepted block, by its number.
pub fn fabcommit_block(
    alloc: Global,
    handle: &mut Handle,
    number: u64,
    receipt: &mut Receipt,
) -> u32
    ensures same { handle.new.held.value ≡ handle.old.held.value }
    ensures told { BlockTold handle.old.held.value number receipt.old receipt.new result }
{
    let Some(kept) = handle.take(alloc) else {
        return CLOSED;
    };
    let code = give_block(kept.ledger.get().view().block(number), number, receipt);
    handle.put(kept);
    code
}

fn give_flags(found: Option<&CommittedBlock>, flags: &mut [u8], len: &mut usize) -> u32
    ensures { FlagsGiven (option_copied found.entry) flags.old flags.new len.old len.new result }
{
    let Some(block) = found else {
        return NONE;
    };
    fill_flags(flags, block.flags.as_slice(), len)
}

/// Tells the flags of an accepted block by its number, one for each transaction.
pub fn fabcommit_flags(
    alloc: Global,
    handle: &mut Handle,
    number: u64,
    flags: &mut [u8],
    len: &mut usize,
) -> u32
    ensures same { handle.new.held.value ≡ handle.old.held.value }
    ensures told { FlagsTold handle.old.held.value number flags.old flags.new len.old len.new result }
{
    let Some(kept) = handle.take(alloc) else {
        return CLOSED;
    };
    let code = give_flags(kept.ledger.get().view().block(number), flags, len);
    handle.put(kept);
    code
}
