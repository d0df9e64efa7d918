//! What is known of items without the ledger.
ghost use Rattle.std.specs.Prelude.{◌≡◌, map, true, None, Some, cond, is_some, IfOk};
ghost use Rattle.transaction.specs.Grammar.{body_bytes};
ghost use Rattle.transaction.specs.Items.{item_of};
ghost use Rattle.transaction.specs.Spelled.{IsSpelled, IsSpelledUpdate};
ghost use Rattle.policy_eval.specs.Signers.{signers_of};
ghost use Rattle.policy_eval.specs.UpdateSigners.{update_signers_of};
ghost use Rattle.rules.specs.declared.early_flag.EarlyFlag.TheVariants.{InvalidConfigTransaction};
ghost use Rattle.rules.specs.Candidate.{flagged, flagged_or, opened, updates, may_update};
ghost use Rattle.policy.specs.Meaning.{policy_of};
ghost use Rattle.candidates.specs.Seen.{seen};
ghost use Rattle.candidates.specs.SetsFault.{sets_fault};
ghost use Rattle.intake.specs.Place.{taken_of, shown};

use candidates::{Candidate, InForm, OpenUpdate};
use channel::Configuration;
use linking::{decoded_item, origin_fault, origin_of};
use policy::{Definitions, Policy, PolicyFault};
use policy_eval::{Verify, signers_with_body, update_signers};
use rules::EarlyFlag;
use std::alloc::{AllocError, Global};
use transaction::{BlockVersion, Item, Tx, TxId, Update};
use values::Slice;

/// What is known of a place of a block before it is known which ids are used, and as if its block had no other item.
#[derive(Drop)]
pub struct Taken<'a> {
    /// The id that its item uses: none if its origin has a fault.
    pub id: Option<TxId>,
    /// What the item is if that id is new.
    pub candidate: Candidate<'a>,
}

/// The candidate of a transaction whose origin is good and whose id is new. Its endorsers' signatures are verified only
/// if its sets are well-formed and its chaincodes defined.
fn candidate_of<'a, V: Verify>(
    alloc: Global,
    definitions: &Definitions,
    verifier: &V,
    tx: Tx<'a>,
    body: &[u8],
) -> Result<Candidate<'a>, AllocError>
    requires spelled { IsSpelled tx }
    requires body { body.now ≡ body_bytes tx }
    ensures { IfOk result (λ c. seen c ≡ flagged_or (sets_fault definitions.now tx.entry) (opened tx.entry (signers_of (V.accepts verifier.now) tx.entry))) }
{
    match InForm::check(alloc, tx, definitions)? {
        Ok(in_form) => {
            let signers = signers_with_body(alloc, in_form.tx(), body, verifier)?;
            Ok(Candidate::Opened(in_form.with_signers(signers)))
        }
        Err(flag) => Ok(Candidate::Flagged(flag)),
    }
}

/// The policy that a text encodes, if it encodes one.
fn policy_in(alloc: Global, text: &[u8]) -> Result<Option<Policy>, AllocError>
    ensures { IfOk result (λ policy. policy ≡ policy_of text.now) }
{
    match Policy::parse_bytes(alloc, text) {
        Ok(policy) => Ok(Some(policy)),
        Err(PolicyFault::Memory) => Err(AllocError),
        Err(_) => Ok(None),
    }
}

/// The policy of an update that is allowed: the channel has an admin policy, the chaincode has a policy, and the text
/// encodes one.
fn policy_if_asked(
    alloc: Global,
    channel: &Configuration,
    update: &Update<'_>,
) -> Result<Option<Policy>, AllocError>
    ensures may { IfOk result (λ policy. is_some policy ≡ may_update channel.now true update.now) }
    ensures spelled { IfOk result (λ policy. is_some policy ≡ true → policy ≡ policy_of update.now.policy) }
{
    if channel.admin().is_none() || channel.definitions().of(&update.namespace).is_none() {
        return Ok(None);
    }
    policy_in(alloc, update.policy.as_slice())
}

/// The candidate of an update whose origin is good and whose id is new, as if its block had no other item. Its
/// endorsers' signatures are verified only if it is allowed.
fn update_candidate<'a, V: Verify>(
    alloc: Global,
    channel: &Configuration,
    verifier: &V,
    update: Update<'a>,
) -> Result<Candidate<'a>, AllocError>
    requires { IsSpelledUpdate update }
    ensures { IfOk result (λ c. seen c ≡ flagged_or (cond (may_update channel.now true update.entry) None (Some InvalidConfigTransaction)) (updates update.entry (update_signers_of (V.accepts verifier.now) update.entry))) }
{
    let Some(policy) = policy_if_asked(alloc, channel, &update)? else {
        return Ok(Candidate::Flagged(EarlyFlag::InvalidConfigTransaction));
    };
    let signers = update_signers(alloc, &update, verifier)?;
    Ok(Candidate::Updates(OpenUpdate::new(update, signers, policy)))
}

/// A place with this flag that uses no id.
fn without_id<'a>(flag: EarlyFlag) -> Taken<'a>
    ensures { shown result ≡ (None, flagged flag) }
{
    Taken {
        id: None,
        candidate: Candidate::Flagged(flag),
    }
}

/// Pre-checks one item of a block of this version: the id that it uses, and its candidate as if its block had no other
/// item. The tests, their order and the memory are those that [`take_in`] has for each item.
pub fn take_in_one<'a, V: Verify>(
    alloc: Global,
    channel: &Configuration,
    verifier: &V,
    version: BlockVersion,
    bytes: &'a [u8],
) -> Result<Taken<'a>, AllocError>
    ensures { IfOk result (λ t. shown t ≡ taken_of channel.now (V.accepts verifier.now) (item_of version bytes.now)) }
{
    let Some(spelled) = decoded_item(alloc, version, bytes)? else {
        return Ok(without_id(EarlyFlag::BadPayload));
    };
    if let Some(flag) = origin_fault(channel, verifier, &spelled) {
        return Ok(without_id(flag));
    }
    let body = spelled.body();
    let id = Some(*origin_of(spelled.item()).id);
    let candidate = match spelled.into_item() {
        Item::Tx(tx) => candidate_of(alloc, channel.definitions(), verifier, tx, body)?,
        Item::Update(update) => update_candidate(alloc, channel, verifier, update)?,
    };
    Ok(Taken { id, candidate })
}

/// Pre-checks the items of a block of this version, or of any part of one, in order.
///
/// The tests of each item come one after the other, up to the first that fails: its grammar, its channel, its creator's
/// signature, its id; of a transaction then its read and write sets and the chaincodes that it names, of an update the
/// channel's admin policy, its chaincode and its text. Its endorsers' signatures come last, if all these hold. Fields
/// are borrowed from the bytes; memory for lists of them, for the keys that are written, for signers, and for an
/// update's policy.
pub fn take_in<'a, V: Verify>(
    alloc: Global,
    channel: &Configuration,
    verifier: &V,
    version: BlockVersion,
    txs: &[Slice<'a>],
) -> Result<Vec<Taken<'a>>, AllocError>
    ensures { IfOk result (λ ts. map shown ts.items ≡ map (taken_of channel.now (V.accepts verifier.now)) (map (item_of version) txs.now)) }
{
    let mut all = Vec::with_capacity(alloc, txs.len())?;
    for bytes in txs {
        all.push(take_in_one(alloc, channel, verifier, version, bytes.as_slice())?)?;
    }
    Ok(all)
}
