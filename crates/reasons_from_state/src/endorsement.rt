//! Why signers may not write what a transaction writes.
ghost use Rattle.std.specs.Prelude.{◌≡◌, ◌≤◌, None, Some, IfOk, IfSome, MatchOption, true, false, not, find, length};
ghost use Rattle.rules.specs.Fold.{running};
ghost use Rattle.rules.specs.Endorsement as rule;
ghost use Rattle.reasons.specs.declared.endorsement_fault.EndorsementFault as fault_of;
ghost use Rattle.reasons.specs.declared.endorsement_fault.EndorsementFault.TheVariants.{Touched, Unsatisfied};
ghost use Rattle.reasons.specs.First.{first_below};
ghost use Rattle.reasons.specs.Shortfall.{shortfall_of};
ghost use Rattle.reasons.specs.Endorsement.{touches, first_barred, IsEndorsementFault};
ghost use Rattle.key_chains.specs.Shown.{Shows};

use crate::place::Place;
use crate::shortfalls::shortfall;
use crate::touchers::first_toucher;
use endorsement_check::{governing, meets, own_policy};
use key_chains::{OpenTx, PlainBoard, StateKey};
use policy::Policy;
use policy_eval::Signers;
use reasons::{EndorsementFault, PolicyOwner, touched_keys_have_a_toucher};
use reasons_before_state::written_keys;
use std::alloc::{AllocError, Global};

/// A key that signers may not write, and who touched it first.
#[derive(Drop)]
struct BarredKey<'a> {
    key: StateKey<'a>,
    toucher: Option<u32>,
}

/// A key, if the signers may not write it at this place.
fn barred<'a>(
    at: &Place<'_>,
    signers: &Signers<'_>,
    key: &StateKey<'a>,
    board: &PlainBoard,
) -> Option<BarredKey<'a>>
    requires place { at.now.i ≤ length at.now.job.now.candidates }
    requires shown { Shows at.now.job.now board.now }
    ensures { MatchOption result (rule.may_write at.now.job.now.definitions at.now.job.now.state (running at.now.job.now at.now.i).touched signers.now key.now ≡ true) (λ b.
        (rule.may_write at.now.job.now.definitions at.now.job.now.state (running at.now.job.now at.now.i).touched signers.now key.now ≡ false)
        × (b.key ≡ key.now) × (b.toucher ≡ first_below (touches at.now.job.now key.now) at.now.i)) }
{
    touched_keys_have_a_toucher();
    let toucher = first_toucher(at.job, at.i, key, board);
    if toucher.is_none() && meets(signers, governing(at.job, key)) {
        return None;
    }
    Some(BarredKey {
        key: key.reborrow(),
        toucher,
    })
}

/// The first of these keys that the signers may not write.
fn first_barred<'a>(
    at: &Place<'_>,
    signers: &Signers<'_>,
    keys: &[StateKey<'a>],
    board: &PlainBoard,
) -> Option<BarredKey<'a>>
    requires place { at.now.i ≤ length at.now.job.now.candidates }
    requires shown { Shows at.now.job.now board.now }
    ensures { MatchOption result (find (λ k. not (rule.may_write at.now.job.now.definitions at.now.job.now.state (running at.now.job.now at.now.i).touched signers.now k)) keys.now ≡ None) (λ b.
        (find (λ k. not (rule.may_write at.now.job.now.definitions at.now.job.now.state (running at.now.job.now at.now.i).touched signers.now k)) keys.now ≡ Some b.key)
        × (b.toucher ≡ first_below (touches at.now.job.now b.key) at.now.i)) }
{
    for key in keys {
        if let Some(found) = barred(at, signers, key, board) {
            return Some(found);
        }
    }
    None
}

/// A key that may not be written since its policy was written at an earlier place of the block.
fn touched(
    alloc: Global,
    key: &StateKey<'_>,
    place: u32,
) -> Result<Option<EndorsementFault>, AllocError>
    ensures { IfOk result (λ fault. fault ≡ Some (Touched key.now.0 key.now.1 place)) }
{
    Ok(Some(EndorsementFault::Touched {
        namespace: key.namespace().copy(alloc)?,
        key: key.key().copy(alloc)?,
        place,
    }))
}

/// A key whose policy the signers don't satisfy.
fn unsatisfied(
    alloc: Global,
    key: &StateKey<'_>,
    owner: PolicyOwner,
    policy: &Policy,
    open_tx: &OpenTx<'_>,
) -> Result<Option<EndorsementFault>, AllocError>
    ensures { IfOk result (λ fault. fault ≡ Some (Unsatisfied key.now.0 key.now.1 owner (shortfall_of open_tx.now.tx.endorsements open_tx.now.signers policy.now))) }
{
    let endorsements = open_tx.tx.endorsements.as_slice();
    Ok(Some(EndorsementFault::Unsatisfied {
        namespace: key.namespace().copy(alloc)?,
        key: key.key().copy(alloc)?,
        owner,
        shortfall: shortfall(alloc, policy, endorsements, &open_tx.signers)?,
    }))
}

/// Why the signers of an open transaction may not write a key, the first that they may not.
fn key_fault(
    alloc: Global,
    at: &Place<'_>,
    open_tx: &OpenTx<'_>,
    barred: &BarredKey<'_>,
) -> Result<Option<EndorsementFault>, AllocError>
    requires toucher { barred.now.toucher ≡ first_below (touches at.now.job.now barred.now.key) at.now.i }
    requires first { first_barred at.now.job.now at.now.i open_tx.now.tx open_tx.now.signers ≡ Some barred.now.key }
    ensures found { IfOk result (λ x. IfSome x (λ f. IsEndorsementFault at.now.job.now at.now.i open_tx.now.tx open_tx.now.signers f)) }
    ensures none { IfOk result (λ x. x ≡ None → (f : fault_of.EndorsementFault) → IsEndorsementFault at.now.job.now at.now.i open_tx.now.tx open_tx.now.signers f → ⊥) }
{
    let key = &barred.key;
    if let Some(place) = barred.toucher {
        return touched(alloc, key, place);
    }
    if let Some(policy) = own_policy(at.job, key) {
        return unsatisfied(alloc, key, PolicyOwner::OfKey, policy, open_tx);
    }
    match at.job.definition(&key.namespace()) {
        None => Ok(None),
        Some(policy) => unsatisfied(alloc, key, PolicyOwner::OfChaincode, policy, open_tx),
    }
}

/// Why the signers of an open transaction may not write what it writes where they may write each key.
fn chaincode_fault(
    alloc: Global,
    at: &Place<'_>,
    open_tx: &OpenTx<'_>,
) -> Result<Option<EndorsementFault>, AllocError>
    requires { first_barred at.now.job.now at.now.i open_tx.now.tx open_tx.now.signers ≡ None }
    ensures found { IfOk result (λ x. IfSome x (λ f. IsEndorsementFault at.now.job.now at.now.i open_tx.now.tx open_tx.now.signers f)) }
    ensures none { IfOk result (λ x. x ≡ None → (f : fault_of.EndorsementFault) → IsEndorsementFault at.now.job.now at.now.i open_tx.now.tx open_tx.now.signers f → ⊥) }
{
    let tx = &open_tx.tx;
    match at.job.definition(&tx.chaincode) {
        None => Ok(None),
        Some(policy) => Ok(Some(EndorsementFault::ChaincodeUnsatisfied {
            chaincode: tx.chaincode.copy(alloc)?,
            shortfall: shortfall(alloc, policy, tx.endorsements.as_slice(), &open_tx.signers)?,
        })),
    }
}

/// Why the signers of an open transaction may not write what it writes at this place.
pub(crate) fn endorsement_fault(
    alloc: Global,
    at: &Place<'_>,
    open_tx: &OpenTx<'_>,
    board: &PlainBoard,
) -> Result<Option<EndorsementFault>, AllocError>
    requires place { at.now.i ≤ length at.now.job.now.candidates }
    requires shown { Shows at.now.job.now board.now }
    ensures found { IfOk result (λ x. IfSome x (λ f. IsEndorsementFault at.now.job.now at.now.i open_tx.now.tx open_tx.now.signers f)) }
    ensures none { IfOk result (λ x. x ≡ None → (f : fault_of.EndorsementFault) → IsEndorsementFault at.now.job.now at.now.i open_tx.now.tx open_tx.now.signers f → ⊥) }
{
    let keys = written_keys(alloc, &open_tx.tx)?;
    match first_barred(at, &open_tx.signers, keys.as_slice(), board) {
        Some(barred) => key_fault(alloc, at, open_tx, &barred),
        None => chaincode_fault(alloc, at, open_tx),
    }
}
