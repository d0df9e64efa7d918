//! The tasks that are ready and weren't handed since they became so.
ghost use Rattle.std.specs.Prelude.{◌≡◌, ◌-◌, ◌<◌, ◌≤◌, true, false, length, replicate, slice_set, IfOk, MatchOption};
ghost use Rattle.task_desk.specs.Bits.{IsLeast, IsEmpty};
ghost use Rattle.task_desk.specs.Groups.{is_member};
ghost use Rattle.task_desk.specs.Runs.{with_run};
ghost use Rattle.task_desk.specs.Unhanded.{IsRunPut, IsFirstRun};

use crate::run::Run;
use crate::task_set::TaskSet;
use std::alloc::{AllocError, Global};
use std::marker::Model;

/// Tasks are handed in their order, but for those that become ready again. So all from one on are kept as that number, and the
/// others in a set. A contract sees for each task whether it is unhanded.
#[derive(Drop)]
pub(crate) struct Unhanded {
    // all from here on
    fresh: u32,
    count: u32,
    others: TaskSet,
    // false only where there are none, which saves a look at the set
    has_others: bool,
}

impl Model for Unhanded {
    ghost use Rattle.std.specs.Prelude.{List, Bool};
    ghost use Rattle.task_desk.specs.Unhanded.{with_fresh, AreBefore};

    ghost Value = { List Bool };

    ghost view = { λ s. with_fresh s.others s.fresh };

    ghost invariant = { λ s. AreBefore s.others s.fresh s.count s.has_others };
}

/// Puts tasks in, from one to before another.
fn put_run(tasks: &mut TaskSet, from: u32, end: u32)
    requires { (from ≤ end) × (end ≤ length tasks.old) }
    ensures { IsRunPut tasks.old from end tasks.new }
{
    for task in from..end {
        tasks.set(task, true);
    }
}

/// The least task, told whether there may be some.
fn first_in(tasks: &TaskSet, has_some: bool) -> Option<u32>
    requires { has_some ≡ false → IsEmpty tasks.now }
    ensures { MatchOption result (IsEmpty tasks.now) (λ t. IsLeast tasks.now t) }
{
    if has_some { tasks.first() } else { None }
}

impl Unhanded {
    /// All of so many tasks.
    pub fn all(alloc: Global, count: u32) -> Result<Unhanded, AllocError>
        requires { count ≤ 8192 }
        ensures { IfOk result (λ s. s ≡ replicate count true) }
    {
        let others = TaskSet::empty(alloc, count)?;
        Ok(Unhanded {
            fresh: 0,
            count,
            others,
            has_others: false,
        })
    }

    /// A task is unhanded no more. Linear in the fresh ones that it goes before.
    fn leave(&mut self, task: u32)
        requires { task < length self.old }
        ensures { self.new ≡ slice_set self.old task false }
    {
        if task < self.fresh {
            self.others.set(task, false);
        } else {
            self.has_others |= self.fresh < task;
            put_run(&mut self.others, self.fresh, task);
            self.fresh = task + 1;
        }
    }

    /// A task is unhanded again.
    fn come_back(&mut self, task: u32)
        requires task { task < length self.old }
        requires away { is_member self.old task ≡ false }
        ensures { self.new ≡ slice_set self.old task true }
    {
        self.others.set(task, true);
        self.has_others = true;
    }

    /// The least of them leaves, and with it some right behind it, at most so many. None where there are none. Constant.
    pub fn take_run(&mut self, most: u32) -> Run
        requires { 0 < most }
        ensures run { IsFirstRun self.old most result.from result.end }
        ensures new { self.new ≡ with_run false self.old result.from (result.end - result.from) }
    {
        if let Some(task) = first_in(&self.others, self.has_others) {
            self.others.set(task, false);
            return Run {
                from: task,
                end: task + 1,
            };
        }
        let from = self.fresh;
        let end = from + most.min(self.count - from);
        self.fresh = end;
        Run { from, end }
    }

    /// Puts a task in or takes it out, told whether it was in: nothing is written where nothing changes.
    #[inline(always)]
    pub fn change(&mut self, task: u32, was: bool, is: bool)
        requires task { task < length self.old }
        requires was { was ≡ is_member self.old task }
        ensures { self.new ≡ slice_set self.old task is }
    {
        match (was, is) {
            (true, false) => self.leave(task),
            (false, true) => self.come_back(task),
            _ => {}
        }
    }

    /// The least of them. Constant.
    pub fn first(&self) -> Option<u32>
        ensures { MatchOption result (IsEmpty self.now) (λ t. IsLeast self.now t) }
    {
        match first_in(&self.others, self.has_others) {
            Some(task) => Some(task),
            None if self.fresh < self.count => Some(self.fresh),
            None => None,
        }
    }
}
