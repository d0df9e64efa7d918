//! The statuses of tasks, with what is counted of them beside.
ghost use Rattle.std.specs.Prelude.{◌≡◌, ℕ, ◌<◌, ◌≤◌, ◌+◌, ◌-◌, true, false, if◌then◌else◌, length, replicate, slice_set, count_by, IfOk, MatchOption};
ghost use Rattle.std.specs.List.{list_all};
ghost use Rattle.task_desk.specs.declared.status.Status.TheVariants.{Ready, Out, Done};
ghost use Rattle.task_desk.specs.Status.{is_ready, is_out, is_done, is_undone, status_at};
ghost use Rattle.task_desk.specs.Runs.{with_run, IsNextRun};
ghost use Rattle.task_desk.specs.Codes.{HasCode};
ghost use Rattle.task_desk.specs.Desk.{NoneReady, NoneUnhanded, IsNext};

use crate::run::Run;
use crate::status::Status;
use crate::status_list::StatusList;
use crate::unhanded::Unhanded;
use std::alloc::{AllocError, Global};
use std::marker::Model;

/// A contract sees the status of each task.
#[derive(Drop)]
pub(crate) struct Statuses {
    list: StatusList,
    unhanded: Unhanded,
    out: u32,
    undone: u32,
}

impl Model for Statuses {
    ghost use Rattle.std.specs.Prelude.{List};
    ghost use Rattle.task_desk.specs.declared.status.Status.{Status};
    ghost use Rattle.task_desk.specs.Counted.{IsCounted};

    ghost Value = { List Status };

    ghost view = { λ s. s.list };

    ghost invariant = { λ s. IsCounted s.list s.unhanded s.out s.undone };
}

/// A count of some tasks once one of them has changed.
fn recounted(count: u32, was: bool, is: bool) -> u32
    requires counted { (if was then 1 else 0) ≤ count }
    requires room { count ≤ 8192 }
    ensures { result + (if was then 1 else 0) ≡ count + (if is then 1 else 0) }
{
    count + u32::from(is) - u32::from(was)
}

impl Statuses {
    /// So many tasks, all ready.
    pub fn new(alloc: Global, count: u32) -> Result<Statuses, AllocError>
        requires { count ≤ 8192 }
        ensures { IfOk result (λ s. s ≡ replicate count Ready) }
    {
        let list = StatusList::all_ready(alloc, count as usize)?;
        let unhanded = Unhanded::all(alloc, count)?;
        Ok(Statuses {
            list,
            unhanded,
            out: 0,
            undone: count,
        })
    }

    /// Where a task is; done, where there is no such task.
    pub fn at(&self, task: u32) -> Status
        ensures { result ≡ status_at self.now task }
    {
        self.list.at(task)
    }

    /// From now on a task is there, told where it was. Inlined, since a caller knows one status or both, and what they don't
    /// change is left out.
    #[inline(always)]
    pub fn set(&mut self, task: u32, was: Status, is: Status)
        requires task { task < length self.old }
        requires was { was ≡ status_at self.old task }
        requires code { HasCode is }
        ensures { self.new ≡ slice_set self.old task is }
    {
        self.unhanded
            .change(task, was.is_unhanded(), is.is_unhanded());
        self.out = recounted(self.out, was.is_out(), is.is_out());
        self.undone = recounted(self.undone, !was.is_done(), !is.is_done());
        self.list.set(task, is);
    }

    /// A run is out: the least task that is ready and wasn't handed since it became so, and some right behind it that are so
    /// too, at most so many.
    pub fn take_run(&mut self, most: u32) -> Run
        requires { 0 < most }
        ensures run { IsNextRun self.old most result.from result.end }
        ensures new { self.new ≡ with_run Out self.old result.from (result.end - result.from) }
    {
        let run = self.unhanded.take_run(most);
        self.list.set_run(run, Status::Out);
        self.out += run.end - run.from;
        run
    }

    /// Ends a run where it sees that all of it are out. Where false, nothing changes.
    pub fn finish_run(&mut self, run: Run) -> bool
        ensures out { result ≡ true → (t : ℕ) → run.from ≤ t → t < run.end → is_out (status_at self.old t) ≡ true }
        ensures new { self.new ≡ (if result then with_run Done self.old run.from (run.end - run.from) else self.old) }
    {
        if run.from > run.end || run.end > self.list.len() || !self.list.is_run(run, Status::Out) {
            return false;
        }
        self.list.set_run(run, Status::Done);
        let count = run.end - run.from;
        self.out -= count;
        self.undone -= count;
        true
    }

    /// Some task that is ready. Linear in the tasks where each that is ready was handed.
    pub fn first_ready(&self) -> Option<u32>
        ensures { MatchOption result (NoneReady self.now) (λ t. is_ready (status_at self.now t) ≡ true) }
    {
        match self.unhanded.first() {
            Some(task) => Some(task),
            None => self.list.first_ready(),
        }
    }

    /// The least task that is ready and wasn't handed since it became so.
    pub fn first_unhanded(&self) -> Option<u32>
        ensures { MatchOption result (NoneUnhanded self.now) (λ t. IsNext self.now t) }
    {
        self.unhanded.first()
    }

    /// How many are out.
    pub fn out(&self) -> u32
        ensures { result ≡ count_by is_out self.now }
    {
        self.out
    }

    /// How many aren't done.
    pub fn left(&self) -> u32
        ensures { result ≡ count_by is_undone self.now }
    {
        self.undone
    }

    /// Whether all are done.
    pub fn all_done(&self) -> bool
        ensures { result ≡ list_all is_done self.now }
    {
        self.undone == 0
    }
}
