ghost use Rattle.std.specs.Prelude.{◌≡◌, ◌<◌, suc, length, IfOk};
ghost use Rattle.rules.specs.Job as rule;
ghost use Rattle.rules.specs.Fold as fold;
ghost use Rattle.key_chains.specs.Cells.{known_of};
ghost use Rattle.key_chains.specs.Shown.{ShowsBefore, Shows};

use key_chains::{Cells, Decision, Job, PlainBoard};
use rules::{Flag, ReadVerdict};
use std::alloc::{AllocError, Global};

/// Whether candidate i passes the endorsement rule.
fn endorsed(job: &Job<'_, '_>, i: u32, board: &mut PlainBoard) -> bool
    requires place { i < length job.now.candidates }
    requires board { length board.old ≡ length job.now.candidates }
    requires shown { ShowsBefore job.now i (known_of board.old) }
    ensures value { result ≡ fold.endorsed job.now i }
    ensures board { board.new ≡ board.old }
{
    let Decision::Sure(endorsed) = endorsement_check::decide(job, i, board) else {
        unreachable!()
    };
    endorsed
}

/// What the reads of candidate i find.
fn read_verdict(job: &Job<'_, '_>, i: u32, board: &mut PlainBoard) -> ReadVerdict
    requires place { i < length job.now.candidates }
    requires board { length board.old ≡ length job.now.candidates }
    requires shown { ShowsBefore job.now i (known_of board.old) }
    ensures value { result ≡ rule.reads job.now i (fold.running job.now i).state }
    ensures board { board.new ≡ board.old }
{
    let Decision::Sure(verdict) = mvcc::decide(job, i, board) else {
        unreachable!()
    };
    verdict
}

/// What the reads of candidate i find, where it is endorsed; else they aren't looked at.
fn counted_reads(
    job: &Job<'_, '_>,
    i: u32,
    is_endorsed: bool,
    board: &mut PlainBoard,
) -> ReadVerdict
    requires place { i < length job.now.candidates }
    requires board { length board.old ≡ length job.now.candidates }
    requires shown { ShowsBefore job.now i (known_of board.old) }
    ensures flag { rule.flag_by (rule.candidate_at job.now i) is_endorsed result
        ≡ rule.flag_by (rule.candidate_at job.now i) is_endorsed (rule.reads job.now i (fold.running job.now i).state) }
    ensures board { board.new ≡ board.old }
{
    if is_endorsed {
        read_verdict(job, i, board)
    } else {
        ReadVerdict::Good
    }
}

/// The verdicts of candidate i.
fn cells(job: &Job<'_, '_>, i: u32, board: &mut PlainBoard) -> (bool, Flag)
    requires place { i < length job.now.candidates }
    requires board { length board.old ≡ length job.now.candidates }
    requires shown { ShowsBefore job.now i (known_of board.old) }
    ensures endorsed { result.0 ≡ fold.endorsed job.now i }
    ensures flag { result.1 ≡ fold.flag job.now i }
    ensures board { board.new ≡ board.old }
{
    let is_endorsed = endorsed(job, i, board);
    let reads = counted_reads(job, i, is_endorsed, board);
    (is_endorsed, job.flag(i, is_endorsed, reads))
}

/// The verdicts of a job's candidates and their flags, taken one by one in order. Costs what the two checks of each cost, and
/// memory for two verdicts and a flag of each. An `Err` is want of memory alone.
pub fn verdicts(alloc: Global, job: &Job<'_, '_>) -> Result<(PlainBoard, Vec<Flag>), AllocError>
    ensures board { IfOk result (λ r. Shows job.now r.0) }
    ensures flags { IfOk result (λ r. r.1.items ≡ fold.flags job.now) }
{
    let count = job.len();
    let mut board = PlainBoard::new(alloc, count as usize)?;
    let mut flags = Vec::with_capacity(alloc, count as usize)?;
    for i in 0..count {
        let (endorsed, flag) = cells(job, i, &mut board);
        board.set(
            i,
            Cells {
                endorsed: Some(endorsed),
                flag: Some(flag),
            },
        );
        flags.push(flag)?;
    }
    Ok((board, flags))
}

/// The flags of a job's candidates, taken one by one in order. Costs what `verdicts` does; an `Err` is want of memory alone.
pub fn flags(alloc: Global, job: &Job<'_, '_>) -> Result<Vec<Flag>, AllocError>
    ensures { IfOk result (λ flags. flags.items ≡ fold.flags job.now) }
{
    let (_board, flags) = verdicts(alloc, job)?;
    Ok(flags)
}
