//! Reasons of transactions that the state decides.
ghost use Rattle.std.specs.Prelude.{◌≡◌, ◌<◌, IsTrue, length, option_map, IfOk};
ghost use Rattle.reasons.specs.declared.reason.Reason.TheVariants.{NotEndorsed, ReadConflict, PhantomConflict};
ghost use Rattle.rules.specs.declared.flag.Flag.TheVariants.{EndorsementPolicyFailure, MvccReadConflict, PhantomReadConflict};
ghost use Rattle.rules.specs.Fold.{flag};
ghost use Rattle.key_chains.specs.Job.{IsOpened};
ghost use Rattle.key_chains.specs.Shown.{Shows};
ghost use Rattle.reasons_from_state.specs.Told.{is_told_by_state, IsTheReason};

use crate::endorsement::endorsement_fault;
use crate::phantoms::phantom_conflict;
use crate::place::Place;
use crate::stale_reads::read_conflict;
use crate::verdicts::flag_of;
use key_chains::{OpenTx, PlainBoard};
use reasons::{EndorsementFault, PhantomKey, Reason, StaleRead, each_place_has_one_reason};
use rules::Flag;
use std::alloc::{AllocError, Global};

fn not_endorsed(fault: Option<EndorsementFault>) -> Option<Reason>
    ensures { result ≡ option_map NotEndorsed fault }
{
    fault.map(Reason::NotEndorsed)
}

fn stale(read: Option<StaleRead>) -> Option<Reason>
    ensures { result ≡ option_map ReadConflict read }
{
    read.map(Reason::ReadConflict)
}

fn phantom(key: Option<PhantomKey>) -> Option<Reason>
    ensures { result ≡ option_map PhantomConflict key }
{
    key.map(Reason::PhantomConflict)
}

fn endorsement_reason(
    alloc: Global,
    at: &Place<'_>,
    open_tx: &OpenTx<'_>,
    board: &PlainBoard,
) -> Result<Option<Reason>, AllocError>
    requires place { at.now.i < length at.now.job.now.candidates }
    requires shown { Shows at.now.job.now board.now }
    requires opened { IsOpened at.now.job.now at.now.i open_tx.now }
    ensures { IfOk result (λ x. IsTheReason at.now.job.now at.now.i EndorsementPolicyFailure x) }
{
    each_place_has_one_reason();
    let fault = endorsement_fault(alloc, at, open_tx, board)?;
    Ok(not_endorsed(fault))
}

fn read_reason(
    alloc: Global,
    at: &Place<'_>,
    open_tx: &OpenTx<'_>,
    board: &mut PlainBoard,
) -> Result<Option<Reason>, AllocError>
    requires place { at.now.i < length at.now.job.now.candidates }
    requires shown { Shows at.now.job.now board.old }
    requires opened { IsOpened at.now.job.now at.now.i open_tx.now }
    ensures value { IfOk result (λ x. IsTheReason at.now.job.now at.now.i MvccReadConflict x) }
    ensures board { board.new ≡ board.old }
{
    let read = read_conflict(alloc, at, open_tx.tx.namespaces.as_slice(), board)?;
    Ok(stale(read))
}

fn phantom_reason(
    alloc: Global,
    at: &Place<'_>,
    open_tx: &OpenTx<'_>,
    board: &mut PlainBoard,
) -> Result<Option<Reason>, AllocError>
    requires place { at.now.i < length at.now.job.now.candidates }
    requires shown { Shows at.now.job.now board.old }
    requires opened { IsOpened at.now.job.now at.now.i open_tx.now }
    ensures value { IfOk result (λ x. IsTheReason at.now.job.now at.now.i PhantomReadConflict x) }
    ensures board { board.new ≡ board.old }
{
    each_place_has_one_reason();
    let key = phantom_conflict(alloc, at, open_tx.tx.namespaces.as_slice(), board)?;
    Ok(phantom(key))
}

/// Why the open transaction at this place has this flag, which isn't that of a valid one.
fn fault_reason(
    alloc: Global,
    at: &Place<'_>,
    open_tx: &OpenTx<'_>,
    flag: Flag,
    board: &mut PlainBoard,
) -> Result<Option<Reason>, AllocError>
    requires place { at.now.i < length at.now.job.now.candidates }
    requires shown { Shows at.now.job.now board.old }
    requires opened { IsOpened at.now.job.now at.now.i open_tx.now }
    requires told { IsTrue (is_told_by_state flag) }
    ensures value { IfOk result (λ x. IsTheReason at.now.job.now at.now.i flag x) }
    ensures board { board.new ≡ board.old }
{
    match flag {
        Flag::EndorsementPolicyFailure => endorsement_reason(alloc, at, open_tx, board),
        Flag::MvccReadConflict => read_reason(alloc, at, open_tx, board),
        Flag::PhantomReadConflict => phantom_reason(alloc, at, open_tx, board),
        _ => Ok(None),
    }
}

/// Why the open transaction at this place has its flag.
pub(crate) fn state_reason(
    alloc: Global,
    at: &Place<'_>,
    open_tx: &OpenTx<'_>,
    board: &mut PlainBoard,
) -> Result<Option<Reason>, AllocError>
    requires place { at.now.i < length at.now.job.now.candidates }
    requires shown { Shows at.now.job.now board.old }
    requires opened { IsOpened at.now.job.now at.now.i open_tx.now }
    ensures value { IfOk result (λ x. IsTheReason at.now.job.now at.now.i (flag at.now.job.now at.now.i) x) }
    ensures board { board.new ≡ board.old }
{
    let flag = flag_of(at.job, at.i, board);
    if flag.is_valid() {
        return Ok(Some(Reason::NoFault));
    }
    fault_reason(alloc, at, open_tx, flag, board)
}
