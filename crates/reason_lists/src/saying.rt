//! What a reason says in numbers.
ghost use Rattle.std.specs.Prelude.{◌≡◌, true};
ghost use Rattle.std.specs.Option.{option_copied};
ghost use Rattle.reason_lists.specs.Said.{seen, of_kind, text_fault, repeat_kind, unsatisfied_kind, conflict_said, result_said, update_said, use_said, endorsement_said, form_said, phantom_said, said, numbers};

use crate::kinds::{
    ADMIN_UNSATISFIED, BAD_SIGNATURE, CHAINCODE_UNSATISFIED, KEY_UNSATISFIED, NAMED_UNSATISFIED,
    NAMESPACE_REPEATS, NO_ADMIN_POLICY, NO_FAULT, NO_TRANSACTION, NOT_ALONE, OTHER_CHANNEL,
    OTHER_ID, PHANTOM_CONFLICT, POLICY_UNREADABLE, POLICY_WRITE_REPEATS, READ_CONFLICT,
    READ_REPEATS, RESULT_FALLS, RESULT_LEAVES, TOUCHED, UNDEFINED, UPDATE_UNDEFINED,
    UPDATE_UNREADABLE, USED_ID, WRITE_REPEATS,
};
use crate::pooled::{PooledReason, Seen};
use crate::shortfalls::{missing_in, missing_role, would_reorder};
use reasons::{
    EndorsementFault, FormFault, IdUse, KeyList, PhantomKey, PolicyOwner, PolicyTextFault,
    RangeResult, Reason, Shortfall, UpdateFault,
};
use transaction::Version;
use verdicts::Piece;

const NOWHERE: Piece = Piece { at: 0, len: 0 };

fn seen(version: &Option<Version>) -> Seen
    ensures { result ≡ seen version.now }
{
    match version {
        Some(version) => Seen {
            block: version.block,
            tx: version.tx,
            is_there: true,
        },
        None => Seen {
            block: 0,
            tx: 0,
            is_there: false,
        },
    }
}

/// A reason of this kind of which nothing else is told.
fn of_kind(kind: u8) -> PooledReason
    ensures { result ≡ of_kind kind }
{
    PooledReason {
        name: NOWHERE,
        key: NOWHERE,
        start: NOWHERE,
        end: NOWHERE,
        id: NOWHERE,
        policy: NOWHERE,
        missing_org: NOWHERE,
        read: seen(&None),
        there: seen(&None),
        block: 0,
        range_place: 0,
        result_place: 0,
        first_identity: 0,
        signers: 0,
        refused: 0,
        tx: 0,
        flag: 0,
        kind,
        used_flag: 0,
        text_fault: 0,
        missing_role: 0,
        has_tx: false,
        exhausted: false,
        has_missing: false,
        another_order: false,
    }
}

fn text_fault(fault: PolicyTextFault) -> u8
    ensures { result ≡ text_fault fault }
{
    match fault {
        PolicyTextFault::TooLarge => 1,
        PolicyTextFault::Syntax => 2,
        PolicyTextFault::Role => 3,
        PolicyTextFault::Threshold => 4,
        PolicyTextFault::TooDeep => 5,
    }
}

fn unreadable(kind: u8, fault: PolicyTextFault) -> PooledReason
    ensures { result ≡ record (of_kind kind) { text_fault = text_fault fault } }
{
    PooledReason {
        text_fault: text_fault(fault),
        ..of_kind(kind)
    }
}

fn update_said(fault: &UpdateFault) -> PooledReason
    ensures { result ≡ update_said fault.now }
{
    match fault {
        UpdateFault::NotAlone => of_kind(NOT_ALONE),
        UpdateFault::NoAdminPolicy => of_kind(NO_ADMIN_POLICY),
        UpdateFault::NoDefinition { .. } => of_kind(UPDATE_UNDEFINED),
        UpdateFault::NoPolicy(fault) => unreadable(UPDATE_UNREADABLE, *fault),
        UpdateFault::AdminUnsatisfied(_) => of_kind(ADMIN_UNSATISFIED),
    }
}

/// Where an id was used first, of a place of the block of this number.
fn use_said(number: u64, first: IdUse) -> PooledReason
    ensures { result ≡ use_said number first }
{
    let (block, tx, flag) = match first {
        IdUse::Earlier { block, place, flag } => (block, place, flag),
        IdUse::Here { place, flag } => (number, place, flag),
    };
    PooledReason {
        block,
        tx,
        has_tx: true,
        used_flag: flag.number(),
        ..of_kind(USED_ID)
    }
}

fn touched(place: u32) -> PooledReason
    ensures { result ≡ record (of_kind TOUCHED) { tx = place; has_tx = true } }
{
    PooledReason {
        tx: place,
        has_tx: true,
        ..of_kind(TOUCHED)
    }
}

fn unsatisfied_kind(owner: PolicyOwner) -> u8
    ensures { result ≡ unsatisfied_kind owner }
{
    match owner {
        PolicyOwner::OfKey => KEY_UNSATISFIED,
        PolicyOwner::OfChaincode => CHAINCODE_UNSATISFIED,
    }
}

fn endorsement_said(fault: &EndorsementFault) -> PooledReason
    ensures { result ≡ endorsement_said fault.now }
{
    match fault {
        EndorsementFault::Touched { place, .. } => touched(*place),
        EndorsementFault::Unsatisfied { owner, .. } => of_kind(unsatisfied_kind(*owner)),
        EndorsementFault::ChaincodeUnsatisfied { .. } => of_kind(NAMED_UNSATISFIED),
    }
}

/// A version that was read isn't the one that is there, which this transaction of the block wrote, if one did.
fn conflict_said(
    kind: u8,
    read: &Option<Version>,
    there: &Option<Version>,
    writer: Option<u32>,
) -> PooledReason
    ensures { result ≡ conflict_said kind read.now there.now writer }
{
    PooledReason {
        read: seen(read),
        there: seen(there),
        tx: writer.unwrap_or(0),
        has_tx: writer.is_some(),
        ..of_kind(kind)
    }
}

fn repeat_kind(list: KeyList) -> u8
    ensures { result ≡ repeat_kind list }
{
    match list {
        KeyList::Reads => READ_REPEATS,
        KeyList::Writes => WRITE_REPEATS,
        KeyList::PolicyWrites => POLICY_WRITE_REPEATS,
    }
}

fn result_said(kind: u8, found: &RangeResult) -> PooledReason
    ensures { result ≡ result_said kind found.now }
{
    PooledReason {
        range_place: found.range_place,
        result_place: found.place,
        ..of_kind(kind)
    }
}

fn form_said(fault: &FormFault) -> PooledReason
    ensures { result ≡ form_said fault.now }
{
    match fault {
        FormFault::NamespaceRepeats { .. } => of_kind(NAMESPACE_REPEATS),
        FormFault::KeyRepeats { list, .. } => of_kind(repeat_kind(*list)),
        FormFault::ResultFalls(found) => result_said(RESULT_FALLS, found),
        FormFault::ResultLeaves(found) => result_said(RESULT_LEAVES, found),
        FormFault::UnreadablePolicy { fault, .. } => unreadable(POLICY_UNREADABLE, *fault),
    }
}

fn phantom_said(phantom: &PhantomKey) -> PooledReason
    ensures { result ≡ phantom_said phantom.now }
{
    PooledReason {
        exhausted: phantom.exhausted,
        ..conflict_said(
            PHANTOM_CONFLICT,
            &phantom.read,
            &phantom.there,
            phantom.writer,
        )
    }
}

/// What is said beside the flag, of a place of the block of this number.
fn said(number: u64, reason: &Reason) -> PooledReason
    ensures { result ≡ said number reason.now }
{
    match reason {
        Reason::NoFault => of_kind(NO_FAULT),
        Reason::NoTransaction => of_kind(NO_TRANSACTION),
        Reason::BadSignature { .. } => of_kind(BAD_SIGNATURE),
        Reason::InvalidUpdate(fault) => update_said(fault),
        Reason::OtherId { .. } => of_kind(OTHER_ID),
        Reason::UsedId(first) => use_said(number, *first),
        Reason::NotEndorsed(fault) => endorsement_said(fault),
        Reason::ReadConflict(read) => {
            conflict_said(READ_CONFLICT, &read.read, &read.there, read.writer)
        }
        Reason::PhantomConflict(phantom) => phantom_said(phantom),
        Reason::OtherChannel { .. } => of_kind(OTHER_CHANNEL),
        Reason::NotInForm(fault) => form_said(fault),
        Reason::Undefined { .. } => of_kind(UNDEFINED),
    }
}

/// All that a reason says in numbers but for places in a pool, of a place of the block of this number.
pub(crate) fn numbers(number: u64, reason: &Reason, shortfall: Option<&Shortfall>) -> PooledReason
    ensures { result ≡ numbers number reason.now (option_copied shortfall.entry) }
{
    let missing = missing_in(shortfall);
    PooledReason {
        flag: reason.flag().number(),
        missing_role: missing_role(missing),
        has_missing: missing.is_some(),
        another_order: would_reorder(shortfall),
        ..said(number, reason)
    }
}
