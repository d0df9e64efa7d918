//! Blocks are submitted.
ghost use Rattle.std.specs.Prelude.{◌≡◌, None, Some};
ghost use Rattle.c_handle.specs.declared.kept.Kept.{Kept};
ghost use Rattle.key_book.specs.Book.{accepts};
ghost use Rattle.verdicts.specs.Said.{accepted_by};
ghost use Rattle.c_calls.specs.Submitted.{SubmittedUnlessShared};

use crate::codes::{CLOSED, SHARED};
use crate::receipt::{Receipt, tell};
use c_handle::{Handle, Kept};
use rules::Refused;
use std::alloc::Global;
use verdicts::{Table, Verdict};

fn submit(kept: &mut Kept, block: &[u8], receipt: &mut Receipt) -> u32
    ensures { SubmittedUnlessShared (accepts kept.old.keys) kept.old block.now kept.new receipt.old receipt.new result }
{
    match kept.ledger.submit_one(block, kept.keys.get()) {
        Some(submitted) => tell(receipt, submitted),
        None => SHARED,
    }
}

fn submit_by(
    alloc: Global,
    kept: &mut Kept,
    block: &[u8],
    pool: &[u8],
    verdicts: &[Verdict],
    receipt: &mut Receipt,
) -> u32
    ensures { SubmittedUnlessShared (accepted_by pool.now verdicts.now) kept.old block.now kept.new receipt.old receipt.new result }
{
    let Ok(table) = Table::new(alloc, pool, verdicts) else {
        return tell(receipt, Err(Refused::Memory));
    };
    match kept.ledger.submit_one(block, &table) {
        Some(submitted) => tell(receipt, submitted),
        None => SHARED,
    }
}

/// Hands in the bytes of the next block, whose signatures are checked by the keys of the handle. A code other than 0 leaves the
/// ledger and the receipt as they were, but that this tells the two numbers of a wrong number, or the number of the fault of the bytes.
/// If another handle shares the ledger the code is `SHARED`.
pub fn fabcommit_submit(
    alloc: Global,
    handle: &mut Handle,
    block: &[u8],
    receipt: &mut Receipt,
) -> u32
    ensures submitted { (old : Kept) → handle.old.held.value ≡ Some old
        → (new : Kept) × (handle.new.held.value ≡ Some new) × SubmittedUnlessShared (accepts old.keys) old block.now new receipt.old receipt.new result }
    ensures closed { handle.old.held.value ≡ None → (handle.new.held.value ≡ None) × (receipt.new ≡ receipt.old) × (result ≡ CLOSED) }
{
    let Some(mut kept) = handle.take(alloc) else {
        return CLOSED;
    };
    let code = submit(&mut kept, block, receipt);
    handle.put(kept);
    code
}

/// Hands in the bytes of the next block, whose signatures the caller has checked: one is good if a verdict on it accepts it. What
/// is told of a refusal is as of [`fabcommit_submit`]. By the verdicts of
/// `fabcommit_list`, each answered as a verifier answers, a block has the flags that it has by that verifier
/// (`verdict_lists::answered_verdicts_suffice`).
pub fn fabcommit_submit_by(
    alloc: Global,
    handle: &mut Handle,
    block: &[u8],
    pool: &[u8],
    verdicts: &[Verdict],
    receipt: &mut Receipt,
) -> u32
    ensures submitted { (old : Kept) → handle.old.held.value ≡ Some old
        → (new : Kept) × (handle.new.held.value ≡ Some new) × SubmittedUnlessShared (accepted_by pool.now verdicts.now) old block.now new receipt.old receipt.new result }
    ensures closed { handle.old.held.value ≡ None → (handle.new.held.value ≡ None) × (receipt.new ≡ receipt.old) × (result ≡ CLOSED) }
{
    let Some(mut kept) = handle.take(alloc) else {
        return CLOSED;
    };
    let code = submit_by(alloc, &mut kept, block, pool, verdicts, receipt);
    handle.put(kept);
    code
}
