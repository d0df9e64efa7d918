//! What the checks return, over what is known.
ghost use Rattle.std.specs.Prelude.{◌≡◌, length, IfOk};

use crate::building::{Ground, state_key};
use crate::cases::{JobCase, KeyPlace, LETTERS, TXS};
use crate::sure::KnownCase;
use key_chains::{Cells, Decision, Job, PlainBoard};
use rules::ReadVerdict;
use std::alloc::{AllocError, Global};
use test_support::Failed;
use transaction::Version;

fn cells_at(known: &KnownCase, i: u32) -> Cells {
    let i = i as usize;
    if i >= TXS {
        return Cells {
            endorsed: None,
            flag: None,
        };
    }
    Cells {
        endorsed: known.endorsed[i],
        flag: known.flags[i],
    }
}

// A board on which this is known of the job's transactions.
fn board_of(alloc: Global, job: &Job<'_, '_>, known: &KnownCase) -> Result<PlainBoard, AllocError>
    ensures { IfOk result (λ board. length board ≡ length job.now.candidates) }
{
    let count = job.len();
    let mut board = PlainBoard::new(alloc, count as usize)?;
    for i in 0..count {
        board.set(i, cells_at(known, i));
    }
    Ok(board)
}

fn endorsement(
    alloc: Global,
    job: &Job<'_, '_>,
    known: &KnownCase,
    i: u32,
) -> Result<Decision<bool>, Failed> {
    if i >= job.len() {
        return Err(Failed::Missing("a transaction"));
    }
    let mut board = board_of(alloc, job, known)?;
    Ok(endorsement_check::decide(job, i, &mut board))
}

fn reads(
    alloc: Global,
    job: &Job<'_, '_>,
    known: &KnownCase,
    i: u32,
) -> Result<Decision<ReadVerdict>, Failed> {
    if i >= job.len() {
        return Err(Failed::Missing("a transaction"));
    }
    let mut board = board_of(alloc, job, known)?;
    Ok(mvcc::decide(job, i, &mut board))
}

fn version(
    alloc: Global,
    job: &Job<'_, '_>,
    known: &KnownCase,
    i: u32,
    place: KeyPlace,
) -> Result<Decision<Option<Version>>, Failed> {
    if i > job.len() {
        return Err(Failed::Missing("a place"));
    }
    let letter = [LETTERS[place.key()]];
    let at = state_key(place.namespace(), &letter)?;
    let mut board = board_of(alloc, job, known)?;
    Ok(mvcc::version_at(job, i, &at, &mut board))
}

/// What both checks return for a transaction, and the version of a key before it.
#[derive(Clone, Copy)]
pub struct Said {
    pub endorsement: Decision<bool>,
    pub reads: Decision<ReadVerdict>,
    pub version: Decision<Option<Version>>,
}

fn said_over(
    alloc: Global,
    job: &Job<'_, '_>,
    known: &KnownCase,
    i: u32,
    place: KeyPlace,
) -> Result<Said, Failed> {
    Ok(Said {
        endorsement: endorsement(alloc, job, known, i)?,
        reads: reads(alloc, job, known, i)?,
        version: version(alloc, job, known, i, place)?,
    })
}

/// What is returned for each transaction of a job.
pub type Answers = [Option<Said>; TXS];

fn all_over(
    alloc: Global,
    job: &Job<'_, '_>,
    known: &KnownCase,
    place: KeyPlace,
) -> Result<Answers, Failed> {
    let mut all = [None; TXS];
    for i in 0..TXS {
        let number = i as u32;
        if number < job.len() {
            all[i] = Some(said_over(alloc, job, known, number, place)?);
        }
    }
    Ok(all)
}

/// What is returned for each transaction of the case, if this is known.
pub fn ask(
    alloc: Global,
    case: &JobCase,
    known: &KnownCase,
    place: KeyPlace,
) -> Result<Answers, Failed> {
    let ground = Ground::of(alloc, case)?;
    let job = ground.job(alloc, case)?;
    all_over(alloc, &job, known, place)
}

/// What is returned for transaction i of the case, and for the first key before it.
pub fn said_of(alloc: Global, case: &JobCase, known: &KnownCase, i: usize) -> Result<Said, Failed> {
    let all = ask(alloc, case, known, KeyPlace::new(0, 0))?;
    match all.get(i) {
        Some(Some(said)) => Ok(*said),
        _ => Err(Failed::Missing("a transaction")),
    }
}
