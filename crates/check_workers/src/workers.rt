ghost use Rattle.std.specs.Prelude.{◌≡◌, ◌*◌, ◌<◌, ◌≤◌, All, length};

use crate::deques::{Owner, Tasks, Thief, deques, pop, steal};
use crate::turns::{Hands, Kept, MOST, Settled, Settlings, Turn, Turns};
use gates::{Gate, Phase};
use key_chains::Job;
use std::alloc::Global;
use std::sync::Wait;
use std::thread;
use std::thread::Threads;
use task_desk::Task;
use verdict_words::{Lent, Steps, VerdictSeat};

fn phase_of(task: Task) -> Phase {
    if task % 2 == 0 {
        Phase::Endorse
    } else {
        Phase::Reads
    }
}

/// Passes the gate, and tries to settle a task.
fn settle_one<G: Gate>(
    job: &Job<'_, '_>,
    seat: &mut VerdictSeat<'_, '_>,
    gate: &G,
    task: Task,
) -> Settled
    requires job { seat.old.job ≡ job.now }
    requires task { task < 2 * length job.now.candidates }
    ensures { seat.new.job ≡ job.now }
{
    gate.at(phase_of(task), task / 2);
    let decision = seat.settle(job, task);
    Settled { task, decision }
}

/// Settles the tasks that a worker keeps, and then those of its own deque.
fn settle_own<J: Tasks, G: Gate>(
    job: &Job<'_, '_>,
    seat: &mut VerdictSeat<'_, '_>,
    gate: &G,
    kept: &[u32],
    own: &mut Owner<J>,
    settled: &mut Settlings,
)
    requires job { seat.old.job ≡ job.now }
    requires tasks { 2 * length job.now.candidates ≡ J.tasks }
    requires kept { All (λ task. task < 2 * length job.now.candidates) kept.now }
    requires room { length kept.now ≤ 256 }
    ensures { seat.new.job ≡ job.now }
{
    settled.clear();
    for task in kept {
        settled.push(settle_one(job, seat, gate, *task));
    }
    for _ in settled.len()..MOST {
        let Some(task) = pop(own) else {
            break;
        };
        settled.push(settle_one(job, seat, gate, task));
    }
}

/// Settles tasks that a worker steals, until each deque is empty in one pass.
fn settle_stolen<J: Tasks, R: Wait, G: Gate>(
    rt: &R,
    job: &Job<'_, '_>,
    seat: &mut VerdictSeat<'_, '_>,
    gate: &G,
    thieves: &[Thief<J>],
    settled: &mut Settlings,
)
    requires job { seat.old.job ≡ job.now }
    requires tasks { 2 * length job.now.candidates ≡ J.tasks }
    ensures { seat.new.job ≡ job.now }
{
    settled.clear();
    for _ in 0..MOST {
        let Some(task) = steal(rt, thieves) else {
            break;
        };
        settled.push(settle_one(job, seat, gate, task));
    }
}

/// The ends of deques that one worker holds: those of its own deque, and those from which it steals.
#[derive(Drop)]
struct Ends<'d, J: Tasks> {
    own: Owner<J>,
    thieves: &'d [Thief<J>],
}

/// One worker: settles tasks until nothing is left for it.
fn work<J: Tasks, R: Wait, G: Gate>(
    rt: &R,
    job: &Job<'_, '_>,
    steps: &Steps<'_>,
    turns: &Turns,
    ends: Ends<'_, J>,
    gate: &G,
)
    requires job { steps.now.key ≡ job.now }
    requires words { steps.now.table_id.words ≡ 2 * length job.now.candidates }
    requires some { 0 < length job.now.candidates }
    requires tasks { 2 * length job.now.candidates ≡ J.tasks }
{
    let mut seat = VerdictSeat::enter(steps);
    let Ends { mut own, thieves } = ends;
    let tasks = 2 * job.len();
    let mut hands = Hands {
        settled: Settlings::new(),
        kept: Kept::new(),
    };
    let mut seen = None;
    for _ in rt.forever() {
        match turns.next(rt, &mut own, tasks, &mut hands, seen) {
            Turn::Settle => {
                settle_own(
                    job,
                    &mut seat,
                    gate,
                    hands.kept.as_slice(),
                    &mut own,
                    &mut hands.settled,
                );
                seen = None;
            }
            Turn::Find(batches) => {
                settle_stolen(rt, job, &mut seat, gate, thieves, &mut hands.settled);
                seen = if hands.settled.is_empty() {
                    Some(batches)
                } else {
                    None
                };
            }
            Turn::End => break,
        }
    }
}

/// Runs workers whose deques hold tasks of this job, and waits until they have ended: as many as the desk is for, the
/// calling thread included. One that can't be started, or gets no deque, is skipped.
pub(crate) fn run<J: Tasks + Send + Sync, R: Threads + Wait + Sync, G: Gate + Sync>(
    rt: &R,
    alloc: Global,
    lent: &Lent<'_>,
    steps: &Steps<'_>,
    turns: &Turns,
    gate: &G,
)
    requires job { steps.now.key ≡ lent.now }
    requires words { steps.now.table_id.words ≡ 2 * length lent.now.candidates }
    requires some { 0 < length lent.now.candidates }
    requires tasks { 2 * length lent.now.candidates ≡ J.tasks }
{
    let (mut owners, thieves) = deques::<J>(alloc, turns.workers());
    let thieves = thieves.as_slice();
    let last = owners.pop();
    if owners.is_empty() {
        // a scope makes system calls, even if it starts no thread
        if let Some(own) = last {
            work(rt, lent.job(), steps, turns, Ends { own, thieves }, gate);
        }
        return;
    }
    thread::scope(
        thread::scope_env(),
        rt,
        |scope|
            requires { (steps.now.key ≡ lent.now) × (steps.now.table_id.words ≡ 2 * length lent.now.candidates) × (0 < length lent.now.candidates) × (2 * length lent.now.candidates ≡ J.tasks) }
        {
            for own in owners {
                let worker = move ||
                    requires { (steps.now.key ≡ lent.now) × (steps.now.table_id.words ≡ 2 * length lent.now.candidates) × (0 < length lent.now.candidates) × (2 * length lent.now.candidates ≡ J.tasks) }
                { work(rt, lent.job(), steps, turns, Ends { own, thieves }, gate) };
                if scope.spawn(worker).is_err() {
                    break;
                }
            }
            if let Some(own) = last {
                work(rt, lent.job(), steps, turns, Ends { own, thieves }, gate);
            }
        },
    );
}
