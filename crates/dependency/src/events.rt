ghost use Rattle.std.specs.Prelude.{◌≡◌, length, map, IfOk};
ghost use Rattle.rules.specs.Machine.{first_board, Run, ShowsFold};
ghost use Rattle.dependency.specs.Rows.{first_cells};

use crate::checking::check;
use crate::event_board::EventBoard;
use key_chains::{Cells, Job, PlainBoard};
use rules::Event;
use std::alloc::{AllocError, Global};

/// What is known before any check: the flagged candidates' cells.
fn first_board(alloc: Global, job: &Job<'_, '_>) -> Result<PlainBoard, AllocError>
    ensures { IfOk result (λ b. b ≡ map first_cells job.now.candidates) }
{
    let count = job.len();
    let mut board = PlainBoard::new(alloc, count as usize)?;
    for i in 0..count {
        if let Some(flag) = job.flagged(i) {
            board.set(
                i,
                Cells {
                    endorsed: Some(false),
                    flag: Some(flag.flag()),
                },
            );
        }
    }
    Ok(board)
}

/// What these checks of a job's candidates find, in this order. The flagged candidates' cells are known at first.
///
/// An endorsement check makes its cell known only with a decided verdict, and does so if all that it depends on is
/// known. So does a read check, once the endorsement's is known; if that is no, the flag is that of a failed
/// endorsement. A check that comes too early or twice, or whose number is out of range, changes nothing. For any checks
/// in any order, each known cell is the verdict of the candidates taken one by one. Costs what each check costs; memory
/// for two cells of each candidate. The only `Err` is out of memory.
pub fn run_events(
    alloc: Global,
    job: &Job<'_, '_>,
    events: &[Event],
) -> Result<EventBoard, AllocError>
    ensures run { IfOk result (λ b. Run job.now (first_board job.now) events.now b) }
    ensures fold { IfOk result (λ b. ShowsFold job.now b) }
{
    let mut board = first_board(alloc, job)?;
    for event in events {
        check(job, *event, &mut board);
    }
    Ok(EventBoard {
        cells: board,
        count: job.len(),
    })
}
