ghost use Rattle.std.specs.Prelude.{◌≡◌, ◌-◌, ◌<◌, ◌≤◌, true, false, if◌then◌else◌, length, count_by, IfOk, IsSome, MatchOption};
ghost use Rattle.std.specs.List.{list_all};
ghost use Rattle.task_desk.specs.Status.{is_ready, is_out, is_done, is_undone, status_at};
ghost use Rattle.task_desk.specs.Desk.{new_desk, with_out, with_handed, can_park, with_parked, with_done, NoneReady, NoneUnhanded, IsNext, IsDesk};
ghost use Rattle.task_desk.specs.declared.status.Status.TheVariants.{Out};
ghost use Rattle.task_desk.specs.Runs.{with_run, with_run_done, IsNextRun};
ghost use Rattle.task_desk.specs.Waiting.{with_ready};
ghost use Rattle.task_desk.specs.Links.{AreBelow};

use crate::run::Run;
use crate::status::Status;
use crate::statuses::Statuses;
use crate::task::Task;
use crate::wait_lists::{WaitLists, Waiting};
use std::alloc::{AllocError, Global};
use std::marker::Model;

/// Where each task of a block is. A contract sees the status of each.
///
/// A task that is parked waits for a smaller one that isn't done. Once the desk is made no call takes memory.
#[derive(Drop)]
pub struct Desk {
    statuses: Statuses,
    waits: WaitLists,
}

impl Model for Desk {
    ghost use Rattle.std.specs.Prelude.{List};
    ghost use Rattle.task_desk.specs.declared.status.Status.{Status};
    ghost use Rattle.task_desk.specs.Desk.{IsDesk};
    ghost use Rattle.task_desk.specs.Waiting.{AreWaiting};

    ghost Value = { List Status };

    ghost view = { λ d. d.statuses };

    ghost invariant = { λ d. IsDesk d.statuses × AreWaiting d.statuses d.waits };
}

/// Tasks become ready.
fn wake(waiting: Waiting<'_>, statuses: &mut Statuses)
    requires { AreBelow waiting (length statuses.old) }
    ensures { statuses.new ≡ with_ready waiting.entry statuses.old }
{
    for task in waiting {
        let was = statuses.at(task);
        statuses.set(task, was, Status::Ready);
    }
}

/// Those of a run that are out are done, one after the other.
fn done_each(desk: &mut Desk, run: Run)
    ensures { desk.new ≡ with_run_done desk.old run.from (run.end - run.from) }
{
    for task in run.from..run.end {
        desk.done(task);
    }
}

impl Desk {
    /// Two tasks for each of n transactions, all ready. Takes memory for all that later calls need; an `Err` is want
    /// of it.
    pub fn new(alloc: Global, n: u32) -> Result<Desk, AllocError>
        requires { n ≤ 4096 }
        ensures { IfOk result (λ d. d ≡ new_desk n) }
    {
        let count = 2 * n;
        Ok(Desk {
            statuses: Statuses::new(alloc, count)?,
            waits: WaitLists::new(alloc, count as usize)?,
        })
    }

    /// Takes some ready task out; none where none is ready. While a task isn't done and none is out, one is ready.
    /// Constant, but linear in the tasks where each that is ready was handed.
    pub fn take(&mut self) -> Option<Task>
        ensures taken { MatchOption result (NoneReady self.old × (self.new ≡ self.old))
            (λ t. (is_ready (status_at self.old t) ≡ true) × (self.new ≡ with_out self.old t)) }
        ensures never_stuck { list_all is_done self.old ≡ false → count_by is_out self.old ≡ 0 → IsSome result }
    {
        let Some(task) = self.statuses.first_ready() else {
            return None;
        };
        let was = self.statuses.at(task);
        self.statuses.set(task, was, Status::Out);
        Some(task)
    }

    /// Parks a task that is out on a smaller one, or makes it ready where that is done. Elsewhere false, and nothing
    /// changes. Constant.
    pub fn park(&mut self, task: Task, h: Task) -> bool
        ensures answer { result ≡ can_park self.old task h }
        ensures new { self.new ≡ (if result then with_parked self.old task h else self.old) }
    {
        let was = self.statuses.at(task);
        if !was.is_out() || h >= task {
            return false;
        }
        if self.statuses.at(h).is_done() {
            self.statuses.set(task, was, Status::Ready);
        } else {
            self.statuses.set(task, was, Status::Parked(h));
            self.waits.push(h, task);
        }
        true
    }

    /// A task that is out is done, and exactly those parked on it become ready. Elsewhere false, and nothing changes.
    /// Linear in the tasks that become ready.
    pub fn done(&mut self, task: Task) -> bool
        ensures answer { result ≡ is_out (status_at self.old task) }
        ensures new { self.new ≡ (if result then with_done self.old task else self.old) }
    {
        let was = self.statuses.at(task);
        if !was.is_out() {
            return false;
        }
        self.statuses.set(task, was, Status::Done);
        wake(self.waits.on(task), &mut self.statuses);
        self.waits.clear(task);
        true
    }

    /// Takes a run out: the least ready task that wasn't handed since it became ready, and some right behind it that are so
    /// too, at most so many. An empty one where there is none. Linear in the run.
    pub fn take_run(&mut self, most: u32) -> Run
        requires { 0 < most }
        ensures run { IsNextRun self.old most result.from result.end }
        ensures new { self.new ≡ with_run Out self.old result.from (result.end - result.from) }
    {
        self.statuses.take_run(most)
    }

    /// Those of a run that are out are done, as if each were told by itself in order. Linear in the run, and in the tasks that
    /// become ready.
    pub fn done_run(&mut self, run: Run)
        ensures { self.new ≡ with_run_done self.old run.from (run.end - run.from) }
    {
        if self.waits.has_waiting() || !self.statuses.finish_run(run) {
            done_each(self, run);
        }
    }

    /// Hands the least ready task that wasn't handed since it became ready, which stays ready; none where there is none.
    /// Constant.
    pub fn hand(&mut self) -> Option<Task>
        ensures { MatchOption result (NoneUnhanded self.old × (self.new ≡ self.old))
            (λ t. IsNext self.old t × (self.new ≡ with_handed self.old t)) }
    {
        let Some(task) = self.statuses.first_unhanded() else {
            return None;
        };
        self.statuses.set(task, Status::Ready, Status::Handed);
        Some(task)
    }

    /// Takes a task out where it is ready. Elsewhere false, and nothing changes. Constant where all tasks before it were
    /// handed, else linear in these.
    pub fn start(&mut self, task: Task) -> bool
        ensures answer { result ≡ is_ready (status_at self.old task) }
        ensures new { self.new ≡ (if result then with_out self.old task else self.old) }
    {
        let was = self.statuses.at(task);
        if !was.is_ready() {
            return false;
        }
        self.statuses.set(task, was, Status::Out);
        true
    }

    /// Whether all tasks are done. Constant.
    pub fn all_done(&self) -> bool
        ensures { result ≡ list_all is_done self.now }
    {
        self.statuses.all_done()
    }

    /// How many tasks are out. Constant.
    pub fn out(&self) -> u32
        ensures { result ≡ count_by is_out self.now }
    {
        self.statuses.out()
    }

    /// How many tasks aren't done. Constant.
    pub fn left(&self) -> u32
        ensures { result ≡ count_by is_undone self.now }
    {
        self.statuses.left()
    }
}
