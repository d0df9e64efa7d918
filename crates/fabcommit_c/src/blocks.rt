//! Blocks are handed in, and explained.
ghost use Rattle.std.specs.Prelude.{◌≡◌, Result, None, Some};
ghost use Rattle.block.specs.declared.fault.BlockFault.{BlockFault};
ghost use Rattle.key_book.specs.Book.{accepts};
ghost use Rattle.verdicts.specs.Said.{accepted_by};
ghost use Rattle.verdict_lists.specs.declared.listing.ListedVerdicts.{ListedVerdicts};
ghost use Rattle.c_handle.specs.declared.kept.Kept.{Kept};
ghost use Rattle.c_calls.specs.Explained.{ReasonsTold};
ghost use Rattle.c_calls.specs.Lists.{IsListed, ListTold};
ghost use Rattle.c_calls.specs.Submitted.{SubmittedUnlessShared};

use c_calls::{CLOSED, ReasonSizes, Receipt, Sizes};
use c_handle::Handle;
use reason_lists::{PooledIdentity, PooledReason};
use std::alloc::Global;
use verdicts::Verdict;

/// [`c_calls::fabcommit_list`].
#[unsafe(no_mangle)]
pub extern "C" fn fabcommit_list(
    alloc: Global,
    block: &[u8],
    pool: &mut [u8],
    verdicts: &mut [Verdict],
    sizes: &mut Sizes,
) -> u32
    ensures { (listed : Result ListedVerdicts BlockFault) × IsListed block.now listed
        × ListTold listed pool.old pool.new verdicts.old verdicts.new sizes.old sizes.new result }
{
    c_calls::fabcommit_list(alloc, block, pool, verdicts, sizes)
}

/// [`c_calls::fabcommit_submit`].
#[unsafe(no_mangle)]
pub extern "C" fn fabcommit_submit(
    alloc: Global,
    handle: &mut Handle,
    block: &[u8],
    receipt: &mut Receipt,
) -> u32
    ensures submitted { (old : Kept) → handle.old.held.value ≡ Some old
        → (new : Kept) × (handle.new.held.value ≡ Some new) × SubmittedUnlessShared (accepts old.keys) old block.now new receipt.old receipt.new result }
    ensures closed { handle.old.held.value ≡ None → (handle.new.held.value ≡ None) × (receipt.new ≡ receipt.old) × (result ≡ CLOSED) }
{
    c_calls::fabcommit_submit(alloc, handle, block, receipt)
}

/// [`c_calls::fabcommit_submit_by`].
#[unsafe(no_mangle)]
pub extern "C" fn fabcommit_submit_by(
    alloc: Global,
    handle: &mut Handle,
    block: &[u8],
    pool: &[u8],
    verdicts: &[Verdict],
    receipt: &mut Receipt,
) -> u32
    ensures submitted { (old : Kept) → handle.old.held.value ≡ Some old
        → (new : Kept) × (handle.new.held.value ≡ Some new) × SubmittedUnlessShared (accepted_by pool.now verdicts.now) old block.now new receipt.old receipt.new result }
    ensures closed { handle.old.held.value ≡ None → (handle.new.held.value ≡ None) × (receipt.new ≡ receipt.old) × (result ≡ CLOSED) }
{
    c_calls::fabcommit_submit_by(alloc, handle, block, pool, verdicts, receipt)
}

/// [`c_calls::fabcommit_explain`].
#[unsafe(no_mangle)]
pub extern "C" fn fabcommit_explain(
    alloc: Global,
    handle: &mut Handle,
    block: &[u8],
    pool: &mut [u8],
    reasons: &mut [PooledReason],
    identities: &mut [PooledIdentity],
    sizes: &mut ReasonSizes,
) -> u32
    ensures same { handle.new.held.value ≡ handle.old.held.value }
    ensures told { ReasonsTold (λ kept. accepts kept.keys) handle.old.held.value block.now pool.old pool.new reasons.old reasons.new identities.old identities.new sizes.old sizes.new result }
{
    c_calls::fabcommit_explain(alloc, handle, block, pool, reasons, identities, sizes)
}

/// [`c_calls::fabcommit_explain_by`].
#[unsafe(no_mangle)]
pub extern "C" fn fabcommit_explain_by(
    alloc: Global,
    handle: &mut Handle,
    block: &[u8],
    verdict_pool: &[u8],
    verdicts: &[Verdict],
    pool: &mut [u8],
    reasons: &mut [PooledReason],
    identities: &mut [PooledIdentity],
    sizes: &mut ReasonSizes,
) -> u32
    ensures same { handle.new.held.value ≡ handle.old.held.value }
    ensures told { ReasonsTold (λ _. accepted_by verdict_pool.now verdicts.now) handle.old.held.value block.now pool.old pool.new reasons.old reasons.new identities.old identities.new sizes.old sizes.new result }
{
    c_calls::fabcommit_explain_by(
        alloc,
        handle,
        block,
        verdict_pool,
        verdicts,
        pool,
        reasons,
        identities,
        sizes,
    )
}
