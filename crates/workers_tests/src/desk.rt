//! Calls of a desk, one after the other, and what they answer.

use std::alloc::{AllocError, Global};
use task_desk::{Desk, Run};

/// A call, and behind its arguments what it has to answer.
#[derive(Clone, Copy)]
enum Call {
    Take(Option<u32>),
    // twice: the first two tasks, in any order
    TakeTwo,
    TakeRun(u32, Option<(u32, u32)>),
    DoneRun(u32, u32),
    Hand(Option<u32>),
    Start(u32, bool),
    Park(u32, u32, bool),
    Done(u32, bool),
    AllDone(bool),
    Out(u32),
    Left(u32),
    // all tasks in order, each handed, started and done
    WorkInOrder,
    // all tasks in runs, each longer than the one before; how many runs there are
    WorkInRuns(u32),
}

// As many transactions as a block has at most, and their tasks.
const TXS: u32 = 4096;

const TASKS: u32 = 2 * TXS;

// An empty run may stand anywhere.
fn shown(run: Run) -> Option<(u32, u32)> {
    if run.from < run.end {
        Some((run.from, run.end))
    } else {
        None
    }
}

fn are_two_taken(desk: &mut Desk) -> bool {
    match (desk.take(), desk.take()) {
        (Some(one), Some(other)) => one < 2 && other < 2 && one != other,
        _ => false,
    }
}

fn are_handed_in_order(desk: &mut Desk) -> bool {
    for task in 0..TASKS {
        if desk.hand() != Some(task) || !desk.start(task) || !desk.done(task) {
            return false;
        }
    }
    true
}

fn runs_worked_through(desk: &mut Desk) -> u32 {
    for count in 0..TASKS {
        let run = desk.take_run(count + 1);
        if run.from == run.end {
            return count;
        }
        desk.done_run(run);
    }
    TASKS
}

fn is_answered(desk: &mut Desk, call: Call) -> bool {
    match call {
        Call::Take(task) => desk.take() == task,
        Call::TakeTwo => are_two_taken(desk),
        Call::TakeRun(most, run) => shown(desk.take_run(most.max(1))) == run,
        Call::DoneRun(from, end) => {
            desk.done_run(Run { from, end });
            true
        }
        Call::Hand(task) => desk.hand() == task,
        Call::Start(task, wanted) => desk.start(task) == wanted,
        Call::Park(task, h, wanted) => desk.park(task, h) == wanted,
        Call::Done(task, wanted) => desk.done(task) == wanted,
        Call::AllDone(wanted) => desk.all_done() == wanted,
        Call::Out(count) => desk.out() == count,
        Call::Left(count) => desk.left() == count,
        Call::WorkInOrder => are_handed_in_order(desk),
        Call::WorkInRuns(count) => runs_worked_through(desk) == count,
    }
}

// How many of the calls are answered so, up to the first that isn't.
fn answered(desk: &mut Desk, calls: &[Call]) -> usize {
    let mut count: usize = 0;
    for call in calls {
        if !is_answered(desk, *call) {
            return count;
        }
        count = count.saturating_add(1);
    }
    count
}

fn answered_first(alloc: Global, txs: u32, calls: &[Call]) -> Result<usize, AllocError> {
    if txs > TXS {
        return Ok(0);
    }
    let mut desk = Desk::new(alloc, txs)?;
    Ok(answered(&mut desk, calls))
}

fn cases() -> &'static [(&'static str, u32, &'static [Call])] {
    &CASES
}

// Calls of a desk over so many transactions.
static CASES: [(&str, u32, &[Call]); 7] = [
    ("tasks that are taken", 1, TAKING),
    ("tasks that are handed", 1, HANDING),
    ("tasks that are started out of turn", 3, STARTING),
    ("runs of tasks", 3, RUNNING),
    ("no tasks", 0, NOTHING),
    (
        "as many tasks as can be",
        TXS,
        &[Call::WorkInOrder, Call::AllDone(true)],
    ),
    // 1 + 2 + .. + 127 are 8,128
    (
        "as many tasks in runs",
        TXS,
        &[Call::WorkInRuns(128), Call::AllDone(true)],
    ),
];

const TAKING: &[Call] = &[
    Call::TakeTwo,
    Call::Out(2),
    Call::Take(None),
    Call::Park(1, 1, false),
    Call::Park(1, 2, false),
    Call::Park(1, 0, true),
    Call::Out(1),
    Call::Park(1, 0, false),
    Call::Done(1, false),
    Call::Take(None),
    Call::Done(0, true),
    Call::Out(0),
    Call::Take(Some(1)),
    // a task that is parked on one that is done is ready
    Call::Park(1, 0, true),
    Call::Take(Some(1)),
    Call::Park(0, 1, false),
    Call::Done(0, false),
    Call::Done(2, false),
    Call::AllDone(false),
    Call::Done(1, true),
    Call::AllDone(true),
    Call::Out(0),
    Call::Take(None),
    Call::Hand(None),
];

const HANDING: &[Call] = &[
    Call::Hand(Some(0)),
    Call::Hand(Some(1)),
    Call::Hand(None),
    Call::Out(0),
    Call::Start(0, true),
    Call::Start(0, false),
    Call::Start(1, true),
    Call::Out(2),
    Call::Park(1, 0, true),
    Call::Hand(None),
    Call::Start(1, false),
    Call::Done(0, true),
    Call::Hand(Some(1)),
    Call::Hand(None),
    Call::Start(2, false),
    // one that was handed can still be taken
    Call::Take(Some(1)),
    Call::Done(1, true),
    Call::AllDone(true),
];

// Some that nobody was handed are started; what is left is handed in order, also what becomes ready again.
const STARTING: &[Call] = &[
    Call::Start(3, true),
    Call::Start(1, true),
    Call::Hand(Some(0)),
    Call::Start(0, true),
    Call::Park(3, 1, true),
    Call::Park(1, 0, true),
    Call::Done(0, true),
    Call::Hand(Some(1)),
    Call::Hand(Some(2)),
    Call::Start(1, true),
    Call::Done(1, true),
    Call::Hand(Some(3)),
    Call::Hand(Some(4)),
    Call::Hand(Some(5)),
    Call::Hand(None),
    // two are done, and of the others none is out
    Call::Left(4),
    Call::Out(0),
];

// Runs of six tasks, of which one is parked and one is taken between others.
const RUNNING: &[Call] = &[
    Call::TakeRun(2, Some((0, 2))),
    Call::Hand(Some(2)),
    Call::TakeRun(9, Some((3, 6))),
    Call::TakeRun(1, None),
    Call::Out(5),
    // one that was handed isn't out yet
    Call::DoneRun(2, 3),
    Call::Start(2, true),
    Call::Park(3, 1, true),
    Call::DoneRun(0, 2),
    Call::Out(3),
    Call::TakeRun(4, Some((3, 4))),
    Call::TakeRun(4, None),
    // those of a run that wait for another one of it are ready behind it, and not done
    Call::Park(4, 2, true),
    Call::DoneRun(2, 6),
    Call::AllDone(false),
    Call::Out(0),
    Call::TakeRun(4, Some((4, 5))),
    // neither a run that ends before it begins, nor one beside the task
    Call::DoneRun(5, 4),
    Call::DoneRun(5, 9),
    Call::Out(1),
    Call::DoneRun(0, 9),
    Call::AllDone(true),
    Call::Out(0),
    Call::TakeRun(4, None),
];

const NOTHING: &[Call] = &[
    Call::AllDone(true),
    Call::Take(None),
    Call::TakeRun(1, None),
    Call::DoneRun(0, 1),
    Call::Hand(None),
    Call::Start(0, false),
    Call::Park(1, 0, false),
    Call::Done(0, false),
    Call::Out(0),
];

#[test]
fn calls_of_a_desk(rt: HostRuntime) -> Result<(), AllocError> {
    for &(case, txs, calls) in cases() {
        assert!(rt;
            answered_first(rt.alloc(), txs, calls)? == calls.len(),
            "{case}"
        );
    }
    Ok(())
}
