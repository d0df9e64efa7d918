//! The reasons of the next block.
ghost use Rattle.std.specs.Prelude.{◌≡◌, ◌≤◌, length, map, Ok, Some, IsSome, IfOk, MatchResult};
ghost use Rattle.block.specs.Limits.{max_txs};
ghost use Rattle.transaction.specs.Items.{item_of};
ghost use Rattle.rules.specs.declared.answer.Refused.TheVariants.{Memory};
ghost use Rattle.rules.specs.Fold as fold;
ghost use Rattle.rules.specs.Names.{HasNamesOf};
ghost use Rattle.rules.specs.Linked.{IsRefused};
ghost use Rattle.key_chains.specs.Shown.{Shows};
ghost use Rattle.ledger.specs.NextReasons.{AreNextReasons, AreFound};

use crate::serial::take_in_next;
use channel::Configuration;
use key_chains::{Job, PlainBoard};
use next_block::job_of;
use policy_eval::Verify;
use reasons::{Reason, each_place_has_one_reason};
use reasons_from_state::{FlaggedBlock, reason_of};
use rules::{Flag, Refused};
use serial_checks::verdicts;
use std::alloc::{AllocError, Global};
use transaction::{BlockVersion, TxId};
use values::{Items, Slice};
use world::World;

/// What the reasons of a block are found by: the channel, the world before it, its version and the bytes of its transactions, its
/// job and the ids that its places use.
#[derive(Clone, Copy)]
struct Grounds<'e, 's, 'b> {
    channel: &'e Configuration,
    world: &'e World,
    version: BlockVersion,
    txs: &'e [Slice<'b>],
    job: &'e Job<'s, 'b>,
    ids: &'e [Option<TxId>],
}

/// The reason of each place, by the flags and all verdicts; none where one has none, which doesn't happen.
fn all_reasons(
    alloc: Global,
    grounds: &Grounds<'_, '_, '_>,
    flags: &[Flag],
    board: &mut PlainBoard,
) -> Result<Option<Items<Reason>>, AllocError>
    requires count { length grounds.now.txs.now ≡ length grounds.now.job.now.candidates }
    requires ids { length grounds.now.ids.now ≡ length grounds.now.job.now.candidates }
    requires flags { flags.now ≡ fold.flags grounds.now.job.now }
    requires few { length grounds.now.ids.now ≤ max_txs }
    requires shown { Shows grounds.now.job.now board.old }
    ensures { IfOk result (λ reasons. AreFound grounds.now.channel.now grounds.now.world.now (map (item_of grounds.now.version) grounds.now.txs.now) grounds.now.job.now grounds.now.ids.now reasons) }
{
    each_place_has_one_reason();
    let block = FlaggedBlock {
        channel: grounds.channel,
        world: grounds.world,
        version: grounds.version,
        ids: grounds.ids,
        flags,
    };
    let mut reasons = Vec::with_capacity(alloc, grounds.txs.len())?;
    for (i, bytes) in grounds.txs.iter().enumerate() {
        let found = reason_of(
            alloc,
            &block,
            grounds.job,
            i as u32,
            bytes.as_slice(),
            board,
        )?;
        let Some(reason) = found else {
            return Ok(None);
        };
        reasons.push(reason)?;
    }
    Ok(Some(Items::from_vec(reasons)))
}

/// The reason of each place of a block.
fn found_reasons(
    alloc: Global,
    grounds: &Grounds<'_, '_, '_>,
) -> Result<Option<Items<Reason>>, AllocError>
    requires count { length grounds.now.txs.now ≡ length grounds.now.job.now.candidates }
    requires ids { length grounds.now.ids.now ≡ length grounds.now.job.now.candidates }
    requires few { length grounds.now.ids.now ≤ max_txs }
    ensures { IfOk result (λ reasons. AreFound grounds.now.channel.now grounds.now.world.now (map (item_of grounds.now.version) grounds.now.txs.now) grounds.now.job.now grounds.now.ids.now reasons) }
{
    let (mut board, flags) = verdicts(alloc, grounds.job)?;
    all_reasons(alloc, grounds, flags.as_slice(), &mut board)
}

/// Reasons of which it is known that they are there.
fn there(found: Result<Option<Items<Reason>>, AllocError>) -> Result<Items<Reason>, Refused>
    requires { IfOk found (λ reasons. IsSome reasons) }
    ensures { MatchResult result (λ reasons. found ≡ Ok (Some reasons)) (λ refused. refused ≡ Memory) }
{
    let Some(reasons) = found? else {
        unreachable!()
    };
    Ok(reasons)
}

/// Why each transaction of the block of these bytes would have its flag after this world, in block order, or why the
/// block would be refused. Costs what [`Ledger::explain`](crate::Ledger::explain) does.
pub fn next_reasons<V: Verify>(
    alloc: Global,
    channel: &Configuration,
    world: &World,
    bytes: &[u8],
    verifier: &V,
) -> Result<Items<Reason>, Refused>
    requires { HasNamesOf channel.now world.now }
    ensures { MatchResult result (AreNextReasons channel.now (V.accepts verifier.now) world.now bytes.now) (IsRefused world.now bytes.now) }
{
    let (block, taken) = take_in_next(alloc, channel, world, bytes, verifier)?;
    let (job, ids) = job_of(alloc, channel, world, taken)?;
    let grounds = Grounds {
        channel,
        world,
        version: block.version(),
        txs: block.txs(),
        job: &job,
        ids: ids.as_slice(),
    };
    there(found_reasons(alloc, &grounds))
}
