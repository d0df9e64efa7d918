//! Why the transactions of the next block have their flags.
ghost use Rattle.std.specs.Prelude.{◌≡◌, ◌≤◌, length, Result, MatchResult, None, Some};
ghost use Rattle.c_handle.specs.declared.kept.Kept.{Kept};
ghost use Rattle.key_book.specs.Book.{accepts};
ghost use Rattle.rules.specs.Linked.{IsRefused};
ghost use Rattle.verdicts.specs.Said.{accepted_by};
ghost use Rattle.reason_lists.specs.Explained.{AreNextListed};
ghost use Rattle.c_calls.specs.Explained.{fits, refused_sizes, WrittenIfFit, AnswerTold, ReasonsTold};

use crate::buffers::{put_bytes, put_identities, put_reasons};
use crate::codes::{CLOSED, OK, SMALL};
use crate::receipt::{code, fault_number};
use c_handle::{Handle, Kept};
use reason_lists::{ListedReasons, PooledIdentity, PooledReason, explained};
use rules::Refused;
use std::alloc::Global;
use verdicts::{Table, Verdict};

/// The block's number (twice), how many bytes a pool has, and how many reasons and identities there are on them. Of a refusal the
/// numbers that a receipt tells.
#[repr(C)]
#[derive(Clone, Copy)]
pub struct ReasonSizes {
    pub number: u64,
    pub got: u64,
    pub pool: usize,
    pub reasons: usize,
    pub identities: usize,
}

fn tell_refused(sizes: &mut ReasonSizes, refused: Refused)
    ensures { sizes.new ≡ refused_sizes refused sizes.old }
{
    match refused {
        Refused::Malformed(fault) => sizes.got = fault_number(fault),
        Refused::WrongNumber { want, got } => {
            sizes.number = want;
            sizes.got = got;
        }
        Refused::WrongPrevious | Refused::WrongDataHash | Refused::OldVersion | Refused::Memory =>
            {}
    }
}

fn fits(
    listed: &ListedReasons,
    pool: &[u8],
    reasons: &[PooledReason],
    identities: &[PooledIdentity],
) -> bool
    ensures { result ≡ fits listed.now pool.now reasons.now identities.now }
{
    listed.pool.len() <= pool.len()
        && listed.reasons.len() <= reasons.len()
        && listed.identities.len() <= identities.len()
}

fn tell_listed(
    listed: &ListedReasons,
    pool: &mut [u8],
    reasons: &mut [PooledReason],
    identities: &mut [PooledIdentity],
) -> u32
    ensures { WrittenIfFit listed.now pool.old pool.new reasons.old reasons.new identities.old identities.new result }
{
    if !fits(listed, pool, reasons, identities) {
        return SMALL;
    }
    put_bytes(pool, listed.pool.as_slice());
    put_reasons(reasons, listed.reasons.as_slice());
    put_identities(identities, listed.identities.as_slice());
    OK
}

fn tell(
    explained: Result<ListedReasons, Refused>,
    pool: &mut [u8],
    reasons: &mut [PooledReason],
    identities: &mut [PooledIdentity],
    sizes: &mut ReasonSizes,
) -> u32
    ensures { AnswerTold explained pool.old pool.new reasons.old reasons.new identities.old identities.new sizes.old sizes.new result }
{
    match explained {
        Ok(listed) => {
            *sizes = ReasonSizes {
                number: listed.number,
                got: listed.number,
                pool: listed.pool.len(),
                reasons: listed.reasons.len(),
                identities: listed.identities.len(),
            };
            tell_listed(&listed, pool, reasons, identities)
        }
        Err(refused) => {
            tell_refused(sizes, refused);
            code(refused)
        }
    }
}

fn explained_by_keys(alloc: Global, kept: &Kept, block: &[u8]) -> Result<ListedReasons, Refused>
    ensures { MatchResult result (AreNextListed kept.now.ledger.channel (accepts kept.now.keys) kept.now.ledger.world block.now) (IsRefused kept.now.ledger.world block.now) }
{
    explained(alloc, kept.ledger.get(), block, kept.keys.get())
}

fn explained_by_verdicts(
    alloc: Global,
    kept: &Kept,
    block: &[u8],
    pool: &[u8],
    verdicts: &[Verdict],
) -> Result<ListedReasons, Refused>
    ensures { MatchResult result (AreNextListed kept.now.ledger.channel (accepted_by pool.now verdicts.now) kept.now.ledger.world block.now) (IsRefused kept.now.ledger.world block.now) }
{
    let table = Table::new(alloc, pool, verdicts)?;
    explained(alloc, kept.ledger.get(), block, &table)
}

/// Tells why each transaction of the next block would have its flag, whose signatures are checked by the keys of the handle, and commits
/// nothing. A code other than 0 tells what `fabcommit_submit` would, or how much room is needed.
pub fn fabcommit_explain(
    alloc: Global,
    handle: &mut Handle,
    block: &[u8],
    pool: &mut [u8],
    reasons: &mut [PooledReason],
    identities: &mut [PooledIdentity],
    sizes: &mut ReasonSizes,
) -> u32
    ensures same { handle.new.held.value ≡ handle.old.held.value }
    ensures told { ReasonsTold (λ kept. accepts kept.keys) handle.old.held.value block.now pool.old pool.new reasons.old reasons.new identities.old identities.new sizes.old sizes.new result }
{
    let Some(kept) = handle.take(alloc) else {
        return CLOSED;
    };
    let explained = explained_by_keys(alloc, &kept, block);
    handle.put(kept);
    tell(explained, pool, reasons, identities, sizes)
}

/// Tells the same where the caller has checked the signatures, as in `fabcommit_submit_by`. By the verdicts of `fabcommit_list`, each
/// answered as a verifier answers, the reasons are that verifier's (`reason_lists::answered_verdicts_suffice_for_reasons`).
pub fn fabcommit_explain_by(
    alloc: Global,
    handle: &mut Handle,
    block: &[u8],
    verdict_pool: &[u8],
    verdicts: &[Verdict],
    pool: &mut [u8],
    reasons: &mut [PooledReason],
    identities: &mut [PooledIdentity],
    sizes: &mut ReasonSizes,
) -> u32
    ensures same { handle.new.held.value ≡ handle.old.held.value }
    ensures told { ReasonsTold (λ _. accepted_by verdict_pool.now verdicts.now) handle.old.held.value block.now pool.old pool.new reasons.old reasons.new identities.old identities.new sizes.old sizes.new result }
{
    let Some(kept) = handle.take(alloc) else {
        return CLOSED;
    };
    let explained = explained_by_verdicts(alloc, &kept, block, verdict_pool, verdicts);
    handle.put(kept);
    tell(explained, pool, reasons, identities, sizes)
}
