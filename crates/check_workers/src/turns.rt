//! Whose turn it is: the desk of tasks, under a lock.
ghost use Rattle.std.specs.Prelude.{◌≡◌, ◌+◌, ◌*◌, ◌<◌, ◌≤◌, All};
ghost use Rattle.arrayvec.specs.ArrayVec.{array_vec_len};
ghost use Rattle.check_workers.specs.Limits.{max_workers};

use crate::deques::{BATCH, Owner, Tasks, push};
use arrayvec::ArrayVec;
use key_chains::Decision;
use std::alloc::{AllocError, Global};
use std::sync::{Condvar, Mutex, Wait};
use task_desk::{Desk, Run, Task};

/// The most tasks that a worker settles between two turns.
pub(crate) const MOST: usize = 256;

/// What a worker has done with a task.
#[derive(Clone, Copy)]
pub(crate) struct Settled {
    pub task: Task,
    pub decision: Decision<()>,
}

// what an empty place holds
impl Default for Settled {
    fn default() -> Settled {
        Settled {
            task: 0,
            decision: Decision::Sure(()),
        }
    }
}

/// What a worker has done since its last turn.
pub(crate) type Settlings = ArrayVec<Settled, MOST>;

/// Tasks that a worker keeps for itself.
pub(crate) type Kept = ArrayVec<Task, MOST>;

/// What a worker holds between two turns.
#[derive(Drop)]
pub(crate) struct Hands {
    pub(crate) settled: Settlings,
    pub(crate) kept: Kept,
}

/// What a worker does next.
#[derive(Clone, Copy)]
pub(crate) enum Turn {
    /// It settles the tasks that it keeps, of which there are some, and then those of its own deque.
    Settle,
    /// It settles what it can steal from the deques, to which this many batches were pushed before.
    Find(u64),
    /// Nothing is left for it.
    End,
}

#[derive(Drop)]
struct Waited {
    desk: Desk,
    workers: u32,
    // how many batches were pushed; after the greatest number comes 0
    batches: u64,
    // whether a worker may sleep
    has_sleepers: bool,
    // whether a check was blocked
    was_blocked: bool,
}

/// Keeps the tasks of a run, and no others.
fn keep_run<J: Tasks>(run: Run, tasks: u32, kept: &mut Kept)
    requires tasks { tasks ≡ J.tasks }
    requires room { run.end ≤ run.from + 256 }
    ensures { All (λ task. task < J.tasks) kept.new.items }
{
    kept.clear();
    // The lock doesn't promise that the desk is this job's.
    for task in run.from..run.end.min(tasks) {
        kept.push(task);
    }
}

impl Waited {
    fn done(&mut self, run: Run) {
        if run.from < run.end {
            self.desk.done_run(run);
        }
    }

    /// Reports to the desk what a worker did, in order. Tasks that follow each other are reported as one run, since
    /// most do.
    fn report(&mut self, settled: &[Settled]) {
        let mut run = Run { from: 0, end: 0 };
        for settled in settled {
            match settled.decision {
                Decision::Sure(()) if settled.task == run.end => {
                    run.end = run.end.saturating_add(1);
                }
                Decision::Sure(()) => {
                    self.done(run);
                    run = Run {
                        from: settled.task,
                        end: settled.task.saturating_add(1),
                    };
                }
                Decision::Blocked(on) => {
                    self.done(run);
                    run = Run { from: 0, end: 0 };
                    self.was_blocked = true;
                    self.desk.park(settled.task, on);
                }
            }
        }
        self.done(run);
    }

    /// How many tasks a worker keeps for itself: half of its equal part of those that aren't done, and once a check was
    /// blocked at most a batch, since others may wait for what it finds. If half of its part is less than a batch, or a
    /// worker sleeps, it keeps one: others can steal the rest.
    fn most(&self) -> usize
        ensures { (1 ≤ result) × (result ≤ 256) }
    {
        let half = (self.desk.left() / self.workers.saturating_mul(2).max(1)) as usize;
        if half < BATCH || self.has_sleepers {
            return 1;
        }
        half.min(if self.was_blocked { BATCH } else { MOST })
    }

    /// Takes the least task that is ready out of the desk: the worker that later pops or steals it needs no lock.
    fn hand(&mut self) -> Option<Task> {
        let Some(task) = self.desk.hand() else {
            return None;
        };
        if self.desk.start(task) {
            Some(task)
        } else {
            None
        }
    }

    fn wake(&mut self, woken: &Condvar) {
        if self.has_sleepers {
            self.has_sleepers = false;
            woken.notify_all();
        }
    }

    /// Takes tasks out for a worker whose deque is empty: those that it keeps, or a batch, of which it keeps one and
    /// the others are pushed, which wakes all. A task that can't be pushed is kept too.
    fn fill<J: Tasks>(&mut self, own: &mut Owner<J>, tasks: u32, kept: &mut Kept, woken: &Condvar)
        requires { tasks ≡ J.tasks }
        ensures { All (λ task. task < J.tasks) kept.new.items }
    {
        let most = self.most();
        keep_run::<J>(self.desk.take_run(most as u32), tasks, kept);
        let mut is_pushed = false;
        for place in kept.len()..most.max(BATCH) {
            let Some(task) = self.hand() else {
                break;
            };
            // The lock doesn't promise that the desk is this job's.
            if task >= tasks {
                break;
            }
            if place < most || push(own, task).is_err() {
                kept.push(task);
            } else {
                is_pushed = true;
            }
        }
        if is_pushed {
            self.batches = self.batches.wrapping_add(1);
            self.wake(woken);
        }
    }
}

/// The desk as workers share it.
#[derive(Drop)]
pub(crate) struct Turns {
    workers: usize,
    waited: Mutex<Waited>,
    woken: Condvar,
}

impl Turns {
    /// The desk of a job of n candidates, all tasks ready, for this many workers.
    pub fn new(alloc: Global, n: u32, workers: usize) -> Result<Turns, AllocError>
        requires n { n ≤ 4096 }
        requires workers { workers ≤ max_workers }
    {
        let desk = Desk::new(alloc, n)?;
        Ok(Turns {
            workers,
            waited: Mutex::new(Waited {
                desk,
                workers: workers as u32,
                batches: 0,
                has_sleepers: false,
                was_blocked: false,
            }),
            woken: Condvar::new(),
        })
    }

    /// How many workers it is for.
    pub fn workers(&self) -> usize {
        self.workers
    }

    /// One turn of the lock, unless it sleeps: a worker whose deque is empty reports what it did, and gets what it does
    /// next. Sleeps if no task is ready, and no batch was pushed since the worker last read their number.
    pub fn next<J: Tasks, R: Wait>(
        &self,
        rt: &R,
        own: &mut Owner<J>,
        tasks: u32,
        hands: &mut Hands,
        seen: Option<u64>,
    ) -> Turn
        requires { tasks ≡ J.tasks }
        ensures { All (λ task. task < J.tasks) hands.new.kept.items }
    {
        let mut waited = self.waited.lock(rt);
        waited.report(hands.settled.as_slice());
        for _ in rt.forever() {
            waited.fill(own, tasks, &mut hands.kept, &self.woken);
            if !hands.kept.is_empty() {
                return Turn::Settle;
            }
            if waited.desk.all_done() {
                waited.wake(&self.woken);
                return Turn::End;
            }
            if seen != Some(waited.batches) {
                return Turn::Find(waited.batches);
            }
            // All tasks that aren't done are held by other workers, who also do what these may unblock.
            if waited.desk.out() == waited.desk.left() {
                return Turn::End;
            }
            waited.has_sleepers = true;
            waited = self.woken.wait(rt, waited);
        }
        unreachable!()
    }
}
