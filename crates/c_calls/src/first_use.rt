//! Where an id was used first.
ghost use Rattle.std.specs.Prelude.{◌≡◌, ◌==◌, length};
ghost use Rattle.std.specs.Bool.{MatchBool};
ghost use Rattle.rules.specs.Answers.{first_use_answer};
ghost use Rattle.c_calls.specs.Asked.{UseGiven, NoUse, UseTold};

use crate::codes::{CLOSED, NO_NAME, NONE, OK};
use c_handle::{Handle, Kept};
use rules::FirstUse;
use std::alloc::Global;
use transaction::TxId;

/// Where an id was used first, and that transaction's flag.
#[repr(C)]
#[derive(Clone, Copy)]
pub struct FoundUse {
    pub block: u64,
    pub tx: u32,
    pub flag: u8,
}

fn tell_use(found: Option<FirstUse>, first: &mut FoundUse) -> u32
    ensures { UseGiven found first.old first.new result }
{
    let Some(found) = found else {
        return NONE;
    };
    *first = FoundUse {
        block: found.block,
        tx: found.place,
        flag: found.flag.number(),
    };
    OK
}

fn first_use(kept: &Kept, id: &[u8], first: &mut FoundUse) -> u32
    ensures { MatchBool (length id.now == 64) (UseGiven (first_use_answer kept.now.ledger.world id.now) first.old first.new result) (NoUse NO_NAME first.old first.new result) }
{
    let Ok(id) = TxId::try_from(id) else {
        return NO_NAME;
    };
    tell_use(kept.ledger.get().view().flag_of(&id), first)
}

/// Tells where an id was used first, of 64 bytes.
pub fn fabcommit_first_use(
    alloc: Global,
    handle: &mut Handle,
    id: &[u8],
    first: &mut FoundUse,
) -> u32
    ensures same { handle.new.held.value ≡ handle.old.held.value }
    ensures told { UseTold handle.old.held.value id.now first.old first.new result }
{
    let Some(kept) = handle.take(alloc) else {
        return CLOSED;
    };
    let code = first_use(&kept, id, first);
    handle.put(kept);
    code
}
