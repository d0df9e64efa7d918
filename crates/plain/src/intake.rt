//! From a block's items to candidates.
ghost use Rattle.std.specs.Prelude.{◌≡◌, ◌&&◌, ◌++◌, ◌==◌, length, map, option_to_list, Some, [], IfOk, OnOk};
ghost use Rattle.std.specs.List.{list_all};
ghost use Rattle.std.specs.FinMap.{contains_key};
ghost use Rattle.transaction.specs.Items.{IsSpelledItem, item_of};
ghost use Rattle.transaction.specs.declared.item.Item.TheVariants as item;
ghost use Rattle.std.specs.List.{list_any};
ghost use Rattle.std.specs.Str.{bytes_eq};
ghost use Rattle.policy.specs.Meaning.{policy_of};
ghost use Rattle.policy_eval.specs.Signers.{signers_of};
ghost use Rattle.policy_eval.specs.UpdateSigners.{update_signers_of};
ghost use Rattle.transaction.specs.Spelled.{IsSpelled, IsSpelledUpdate};
ghost use Rattle.rules.specs.Candidate as candidate;
ghost use Rattle.plain.specs.Keys.{keys_of};
ghost use Rattle.plain.specs.Seen.{seen, channel_with, items_of};

use crate::candidate::{Candidate, OpenTx, OpenUpdate};
use crate::next_block::NextBlock;
use crate::sets::is_in_form;
use crate::state_key::{StateKey, written_keys};
use crate::world::World;
use channel::Configuration;
use linking::{decoded_item, origin_fault, origin_of};
use policy::{Definitions, Policy, PolicyFault};
use policy_eval::{Verify, signers, update_signers};
use rules::EarlyFlag;
use std::alloc::{AllocError, Global};
use transaction::{BlockVersion, Item, Tx, TxId, Update};
use values::{NameRef, Slice};

fn is_defined(definitions: &Definitions, namespace: &NameRef<'_>) -> bool
    ensures { result ≡ candidate.is_defined definitions.now namespace.now }
{
    definitions.of(namespace).is_some()
}

fn are_defined(definitions: &Definitions, keys: &[StateKey<'_>]) -> bool
    ensures { result ≡ list_all (λ k. candidate.is_defined definitions.now k.0) (keys_of keys.now) }
{
    for key in keys {
        if !is_defined(definitions, &key.namespace) {
            return false;
        }
    }
    true
}

fn is_all_defined(
    definitions: &Definitions,
    chaincode: &NameRef<'_>,
    written: &[StateKey<'_>],
) -> bool
    ensures { result ≡ (candidate.is_defined definitions.now chaincode.now && list_all (λ k. candidate.is_defined definitions.now k.0) (keys_of written.now)) }
{
    is_defined(definitions, chaincode) && are_defined(definitions, written)
}

/// What each place of a block is taken in by: the channel, who verifies signatures, the world before the block, and whether the
/// block has one place alone.
#[derive(Clone, Copy)]
struct Setting<'s, V> {
    channel: &'s Configuration,
    verifier: &'s V,
    world: &'s World,
    alone: bool,
}

/// What the rules that ask for no row say of a transaction whose origin is good.
fn checked_tx<'a, V: Verify>(
    alloc: Global,
    setting: &Setting<'_, V>,
    used: bool,
    tx: Tx<'a>,
) -> Result<Candidate<'a>, AllocError>
    requires { IsSpelled tx }
    ensures { IfOk result (λ c. seen c ≡ candidate.flagged_or (candidate.content_fault (channel_with setting.now.channel.now setting.now.world.now) setting.now.alone used (item.Tx tx.entry)) (candidate.opened tx.entry (signers_of (V.accepts setting.now.verifier.now) tx.entry))) }
{
    if used {
        return Ok(Candidate::Flagged(EarlyFlag::DuplicateTxId));
    }
    if !is_in_form(alloc, &tx)? {
        return Ok(Candidate::Flagged(EarlyFlag::BadRwset));
    }
    let written = written_keys(alloc, &tx)?;
    if !is_all_defined(
        setting.world.definitions(),
        &tx.chaincode,
        written.as_slice(),
    ) {
        return Ok(Candidate::Flagged(EarlyFlag::InvalidChaincode));
    }
    let signers = signers(alloc, &tx, setting.verifier)?;
    Ok(Candidate::Open(OpenTx {
        tx,
        signers,
        written,
    }))
}

/// The policy that an update's text spells, or none.
fn policy_spelled(alloc: Global, update: &Update<'_>) -> Result<Option<Policy>, AllocError>
    ensures { IfOk result (λ policy. policy ≡ policy_of update.now.policy) }
{
    match Policy::parse_bytes(alloc, update.policy.as_slice()) {
        Ok(policy) => Ok(Some(policy)),
        Err(PolicyFault::Memory) => Err(AllocError),
        Err(_) => Ok(None),
    }
}

/// What the rules that ask for no row say of an update whose origin is good.
fn checked_update<'a, V: Verify>(
    alloc: Global,
    setting: &Setting<'_, V>,
    used: bool,
    update: Update<'a>,
) -> Result<Candidate<'a>, AllocError>
    requires { IsSpelledUpdate update }
    ensures { IfOk result (λ c. seen c ≡ candidate.flagged_or (candidate.content_fault (channel_with setting.now.channel.now setting.now.world.now) setting.now.alone used (item.Update update.entry)) (candidate.updates update.entry (update_signers_of (V.accepts setting.now.verifier.now) update.entry))) }
{
    if used {
        return Ok(Candidate::Flagged(EarlyFlag::DuplicateTxId));
    }
    if !setting.alone {
        return Ok(Candidate::Flagged(EarlyFlag::InvalidConfigTransaction));
    }
    if setting.channel.admin().is_none() {
        return Ok(Candidate::Flagged(EarlyFlag::InvalidConfigTransaction));
    }
    if !is_defined(setting.world.definitions(), &update.namespace) {
        return Ok(Candidate::Flagged(EarlyFlag::InvalidConfigTransaction));
    }
    let Some(policy) = policy_spelled(alloc, &update)? else {
        return Ok(Candidate::Flagged(EarlyFlag::InvalidConfigTransaction));
    };
    let signers = update_signers(alloc, &update, setting.verifier)?;
    Ok(Candidate::Updates(OpenUpdate {
        update,
        signers,
        policy,
    }))
}

fn checked<'a, V: Verify>(
    alloc: Global,
    setting: &Setting<'_, V>,
    used: bool,
    item: Item<'a>,
) -> Result<Candidate<'a>, AllocError>
    requires { IsSpelledItem item }
    ensures { IfOk result (λ c. seen c ≡ candidate.flagged_or (candidate.content_fault (channel_with setting.now.channel.now setting.now.world.now) setting.now.alone used item.entry) (candidate.open_of (V.accepts setting.now.verifier.now) item.entry)) }
{
    match item {
        Item::Tx(tx) => checked_tx(alloc, setting, used, tx),
        Item::Update(update) => checked_update(alloc, setting, used, update),
    }
}

fn contains(ids: &[TxId], id: &TxId) -> bool
    ensures { result ≡ list_any (bytes_eq id.now) ids.now }
{
    for other in ids {
        if *id == *other {
            return true;
        }
    }
    false
}

fn is_used(world: &World, earlier: &[TxId], id: &TxId) -> bool
    ensures { result ≡ candidate.is_used world.now.first_uses earlier.now (Some id.now) }
{
    world.flag_of(id).is_some() || contains(earlier, id)
}

/// A candidate, with the id that its item uses.
#[derive(Drop)]
struct Place<'a> {
    candidate: Candidate<'a>,
    id: Option<TxId>,
}

/// The candidate of one place, behind places that use the earlier ids.
fn place_of<'a, V: Verify>(
    alloc: Global,
    setting: &Setting<'_, V>,
    version: BlockVersion,
    earlier: &[TxId],
    bytes: &'a [u8],
) -> Result<Place<'a>, AllocError>
    ensures id { IfOk result (λ t. t.id ≡ candidate.used_id setting.now.channel.now (V.accepts setting.now.verifier.now) (item_of version bytes.now)) }
    ensures candidate { IfOk result (λ t. seen t.candidate ≡ candidate.candidate_of (channel_with setting.now.channel.now setting.now.world.now) (V.accepts setting.now.verifier.now) setting.now.alone (candidate.is_used setting.now.world.now.first_uses earlier.now t.id) (item_of version bytes.now)) }
{
    let Some(item) = decoded_item(alloc, version, bytes)? else {
        return Ok(Place {
            candidate: Candidate::Flagged(EarlyFlag::BadPayload),
            id: None,
        });
    };
    if let Some(flag) = origin_fault(setting.channel, setting.verifier, &item) {
        return Ok(Place {
            candidate: Candidate::Flagged(flag),
            id: None,
        });
    }
    let id = *origin_of(item.item()).id;
    let used = is_used(setting.world, earlier, &id);
    Ok(Place {
        candidate: checked(alloc, setting, used, item.into_item())?,
        id: Some(id),
    })
}

fn add_id(ids: &mut Vec<TxId>, id: Option<TxId>) -> Result<(), AllocError>
    ensures { OnOk result (ids.new.items ≡ ids.old.items ++ option_to_list id) }
{
    if let Some(id) = id {
        ids.push(id)?;
    }
    Ok(())
}

/// The candidates of a block, and the id that each place uses.
#[derive(Drop)]
pub(crate) struct Intake<'a> {
    pub candidates: Vec<Candidate<'a>>,
    pub ids: Vec<Option<TxId>>,
}

/// Takes the items of a block of this version in order.
fn taken_in<'a, V: Verify>(
    alloc: Global,
    setting: &Setting<'_, V>,
    version: BlockVersion,
    txs: &[Slice<'a>],
) -> Result<Intake<'a>, AllocError>
    ensures candidates { IfOk result (λ r. map seen r.candidates.items ≡ candidate.candidates_from (channel_with setting.now.channel.now setting.now.world.now) (V.accepts setting.now.verifier.now) setting.now.alone setting.now.world.now.first_uses [] (map (item_of version) txs.now)) }
    ensures ids { IfOk result (λ r. r.ids.items ≡ map (candidate.used_id setting.now.channel.now (V.accepts setting.now.verifier.now)) (map (item_of version) txs.now)) }
{
    let mut candidates = Vec::new(alloc);
    let mut ids = Vec::new(alloc);
    let mut earlier = Vec::new(alloc);
    for bytes in txs {
        let taken = place_of(
            alloc,
            setting,
            version,
            earlier.as_slice(),
            bytes.as_slice(),
        )?;
        candidates.push(taken.candidate)?;
        ids.push(taken.id)?;
        add_id(&mut earlier, taken.id)?;
    }
    Ok(Intake { candidates, ids })
}

/// Takes all items of the next block of a world.
pub(crate) fn take_in<'a, V: Verify>(
    alloc: Global,
    channel: &Configuration,
    verifier: &V,
    world: &World,
    block: &NextBlock<'_, 'a>,
) -> Result<Intake<'a>, AllocError>
    ensures candidates { IfOk result (λ r. map seen r.candidates.items ≡ candidate.candidates_from (channel_with channel.now world.now) (V.accepts verifier.now) (length (items_of block.now) == 1) world.now.first_uses [] (items_of block.now)) }
    ensures ids { IfOk result (λ r. r.ids.items ≡ map (candidate.used_id channel.now (V.accepts verifier.now)) (items_of block.now)) }
{
    let setting = Setting {
        channel,
        verifier,
        world,
        alone: block.txs.len() == 1,
    };
    taken_in(alloc, &setting, block.version, block.txs)
}
