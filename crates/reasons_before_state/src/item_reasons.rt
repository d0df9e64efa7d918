//! Reasons that an item tells without the state.
ghost use Rattle.std.specs.Prelude.{◌≡◌, ◌<◌, ◌≤◌, ◌==◌, List, Some, Option, IsTrue, length, map, option_map, IfOk, MatchOption};
ghost use Rattle.block.specs.Limits.{max_txs};
ghost use Rattle.transaction.specs.declared.transaction.Tx as tx_value;
ghost use Rattle.transaction.specs.declared.update.Update as update_value;
ghost use Rattle.transaction.specs.declared.item.Item as item_value;
ghost use Rattle.transaction.specs.declared.item.Item.TheVariants as kind;
ghost use Rattle.transaction.specs.Items.{item_of};
ghost use Rattle.policy_eval.specs.Accepts.{Accepts};
ghost use Rattle.rules.specs.Flags as early;
ghost use Rattle.rules.specs.Candidate.{flagged, used_id, origin_of};
ghost use Rattle.rules.specs.Job.{candidate_at};
ghost use Rattle.rules.specs.Commit.{channel_in, job_of};
ghost use Rattle.rules.specs.Fold as fold;
ghost use Rattle.reasons.specs.declared.reason.Reason as reason_of;
ghost use Rattle.reasons.specs.declared.reason.Reason.TheVariants as because;
ghost use Rattle.reasons.specs.Form as form;
ghost use Rattle.reasons.specs.Identity as identity;
ghost use Rattle.reasons.specs.Update as update_rule;
ghost use Rattle.reasons.specs.Reason.{flag_of, item_at, Explains, IsReason};
ghost use Rattle.reasons_before_state.specs.Told.{is_told_by_item};

use crate::first_uses::first_use;
use crate::flagged_block::FlaggedBlock;
use crate::form::form_fault;
use crate::identities::owned_identity;
use crate::undefined::first_undefined;
use crate::updates::unsigned_fault;
use channel::Configuration;
use header_hash::tx_id;
use linking::{decoded_item, origin_of};
use reasons::Reason;
use rules::EarlyFlag;
use std::alloc::{AllocError, Global};
use transaction::{Item, SpelledItem};
use world::World;

fn other_channel(alloc: Global, item: &Item<'_>) -> Result<Option<Reason>, AllocError>
    ensures { IfOk result (λ reason. reason ≡ Some (because.OtherChannel (origin_of item.now).channel)) }
{
    Ok(Some(Reason::OtherChannel {
        channel: origin_of(item).channel.copy(alloc)?,
    }))
}

fn bad_signature(alloc: Global, item: &Item<'_>) -> Result<Option<Reason>, AllocError>
    ensures { IfOk result (λ reason. reason ≡ Some (because.BadSignature (origin_of item.now).creator)) }
{
    Ok(Some(Reason::BadSignature {
        creator: owned_identity(alloc, origin_of(item).creator)?,
    }))
}

fn other_id(item: &SpelledItem<'_>) -> Reason
    ensures { result ≡ because.OtherId (identity.wanted_id item.now) }
{
    Reason::OtherId {
        wanted: tx_id(
            origin_of(item.item()).nonce.as_slice(),
            item.creator_bytes(),
        ),
    }
}

/// Why read and write sets aren't in form, which a transaction has.
fn form_reason(alloc: Global, item: &Item<'_>) -> Result<Option<Reason>, AllocError>
    ensures { IfOk result (λ reason. (tx : tx_value.Tx) → item.now ≡ kind.Tx tx → reason ≡ option_map because.NotInForm (form.form_fault tx)) }
{
    match item {
        Item::Tx(tx) => Ok(form_fault(alloc, tx)?.map(Reason::NotInForm)),
        Item::Update(_) => Ok(None),
    }
}

/// The first name in a transaction that has no definition: of its chaincode, or of a namespace that it writes.
fn undefined_reason(
    alloc: Global,
    world: &World,
    item: &Item<'_>,
) -> Result<Option<Reason>, AllocError>
    ensures { IfOk result (λ reason. (tx : tx_value.Tx) → item.now ≡ kind.Tx tx → reason ≡ option_map because.Undefined (identity.first_undefined world.now.definitions tx)) }
{
    match item {
        Item::Tx(tx) => match first_undefined(alloc, world.definitions(), tx)? {
            None => Ok(None),
            Some(chaincode) => Ok(Some(Reason::Undefined { chaincode })),
        },
        Item::Update(_) => Ok(None),
    }
}

/// Why an update may not be made.
fn update_reason(
    alloc: Global,
    channel: &Configuration,
    world: &World,
    alone: bool,
    item: &Item<'_>,
) -> Result<Option<Reason>, AllocError>
    ensures { IfOk result (λ reason. (u : update_value.Update) → item.now ≡ kind.Update u
        → reason ≡ option_map because.InvalidUpdate (update_rule.unsigned_fault (channel_in channel.now world.now) alone u)) }
{
    match item {
        Item::Tx(_) => Ok(None),
        Item::Update(update) => {
            let fault = unsigned_fault(alloc, channel, world, alone, update)?;
            Ok(fault.map(Reason::InvalidUpdate))
        }
    }
}

/// Why the item at place i of a block has this flag, which is told by the item.
fn reason_told(
    alloc: Global,
    block: &FlaggedBlock<'_>,
    i: u32,
    flag: EarlyFlag,
    item: &SpelledItem<'_>,
) -> Result<Option<Reason>, AllocError>
    requires few { length block.now.ids.now ≤ max_txs }
    requires flags { length block.now.flags.now ≡ length block.now.ids.now }
    requires place { i < length block.now.ids.now }
    requires told { IsTrue (is_told_by_item flag) }
    ensures { IfOk result (λ x. (accepts : Accepts) (items : List (Option item_value.Item)) (r : reason_of.Reason) → block.now.ids.now ≡ map (used_id block.now.channel.now accepts) items
        → block.now.flags.now ≡ fold.flags (job_of block.now.channel.now accepts block.now.world.now items) → item_at items i ≡ Some item.now → candidate_at (job_of block.now.channel.now accepts block.now.world.now items) i ≡ flagged flag
        → flag_of r ≡ early.flag_of flag → Explains block.now.channel.now accepts block.now.world.now items i r → x ≡ Some r) }
{
    match flag {
        EarlyFlag::TargetChainNotFound => other_channel(alloc, item.item()),
        EarlyFlag::BadProposalTxId => Ok(Some(other_id(item))),
        EarlyFlag::DuplicateTxId => {
            let id = origin_of(item.item()).id;
            let used = first_use(block.world, block.ids, block.flags, id, i as usize);
            Ok(used.map(Reason::UsedId))
        }
        EarlyFlag::InvalidConfigTransaction => {
            let alone = block.ids.len() == 1;
            update_reason(alloc, block.channel, block.world, alone, item.item())
        }
        EarlyFlag::BadRwset => form_reason(alloc, item.item()),
        EarlyFlag::InvalidChaincode => undefined_reason(alloc, block.world, item.item()),
        EarlyFlag::BadCreatorSignature => bad_signature(alloc, item.item()),
        EarlyFlag::BadPayload => Ok(None),
    }
}

/// Why the item that these bytes spell has this flag, which was given before the rules on the state, at place i of a block.
/// Where these don't belong together nothing is promised, and there may be no reason.
///
/// The bytes are decoded again unless the flag says that they spell nothing, and what the flag is about is looked at again up to
/// the first fault. Fails only where memory is refused: it takes memory for that, and for what the reason names.
pub fn reason_in_bytes(
    alloc: Global,
    block: &FlaggedBlock<'_>,
    i: u32,
    flag: EarlyFlag,
    bytes: &[u8],
) -> Result<Option<Reason>, AllocError>
    requires few { length block.now.ids.now ≤ max_txs }
    requires flags { length block.now.flags.now ≡ length block.now.ids.now }
    requires place { i < length block.now.ids.now }
    ensures { IfOk result (λ x. (accepts : Accepts) (items : List (Option item_value.Item)) (r : reason_of.Reason) → block.now.ids.now ≡ map (used_id block.now.channel.now accepts) items
        → block.now.flags.now ≡ fold.flags (job_of block.now.channel.now accepts block.now.world.now items) → item_at items i ≡ item_of block.now.version bytes.now
        → candidate_at (job_of block.now.channel.now accepts block.now.world.now items) i ≡ flagged flag → IsReason block.now.channel.now accepts block.now.world.now items i r → x ≡ Some r) }
{
    if let EarlyFlag::BadPayload = flag {
        return Ok(Some(Reason::NoTransaction));
    }
    match decoded_item(alloc, block.version, bytes)? {
        None => Ok(None),
        Some(item) => reason_told(alloc, block, i, flag, &item),
    }
}
