//! One check, with a plain board on which the flagged candidates are known.
ghost use Rattle.std.specs.Prelude.{◌≡◌, ◌<◌, length};
ghost use Rattle.rules.specs.declared.event.Event.TheVariants.{Endorse, Reads};
ghost use Rattle.rules.specs.Machine.{SetsEndorsement, SetsFlag, MachineStep};
ghost use Rattle.dependency.specs.Rows.{board_of};

use key_chains::{Cells, Decision, Job, PlainBoard};
use rules::{Event, Flag, ReadVerdict};

fn set_endorsed(board: &mut PlainBoard, i: u32, endorsed: bool)
    requires { i < length board.old }
    ensures { SetsEndorsement (board_of board.old) i endorsed (board_of board.new) }
{
    let cells = board.cells(i);
    board.set(
        i,
        Cells {
            endorsed: Some(endorsed),
            flag: cells.flag,
        },
    );
}

fn set_flag(board: &mut PlainBoard, i: u32, flag: Flag)
    requires { i < length board.old }
    ensures { SetsFlag (board_of board.old) i flag (board_of board.new) }
{
    let cells = board.cells(i);
    board.set(
        i,
        Cells {
            endorsed: cells.endorsed,
            flag: Some(flag),
        },
    );
}

/// The endorsement check of candidate i.
fn check_endorsement(job: &Job<'_, '_>, i: u32, board: &mut PlainBoard)
    requires { length board.old ≡ length job.now.candidates }
    ensures { MachineStep job.now (Endorse i) (board_of board.old) (board_of board.new) }
{
    if i >= job.len() {
        return;
    }
    if board.cells(i).endorsed.is_some() {
        return;
    }
    if let Decision::Sure(endorsed) = endorsement_check::decide(job, i, board) {
        set_endorsed(board, i, endorsed);
    }
}

/// The read check of candidate i.
fn check_reads(job: &Job<'_, '_>, i: u32, board: &mut PlainBoard)
    requires { length board.old ≡ length job.now.candidates }
    ensures { MachineStep job.now (Reads i) (board_of board.old) (board_of board.new) }
{
    if i >= job.len() {
        return;
    }
    let cells = board.cells(i);
    if cells.flag.is_some() {
        return;
    }
    match cells.endorsed {
        None => {}
        Some(false) => set_flag(board, i, job.flag(i, false, ReadVerdict::Good)),
        Some(true) => {
            if let Decision::Sure(verdict) = mvcc::decide(job, i, board) {
                set_flag(board, i, job.flag(i, true, verdict));
            }
        }
    }
}

/// One check. One that is out of range, repeated or too early changes nothing.
pub(crate) fn check(job: &Job<'_, '_>, event: Event, board: &mut PlainBoard)
    requires { length board.old ≡ length job.now.candidates }
    ensures { MachineStep job.now event (board_of board.old) (board_of board.new) }
{
    match event {
        Event::Endorse(i) => check_endorsement(job, i, board),
        Event::Reads(i) => check_reads(job, i, board),
    }
}
