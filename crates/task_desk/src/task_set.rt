//! A set of tasks whose least one is found at once: beside the tasks' bits stands a bit for each 64 of them.
ghost use Rattle.std.specs.Prelude.{◌≡◌, ◌<◌, ◌≤◌, false, length, replicate, slice_set, IfOk, MatchOption};
ghost use Rattle.task_desk.specs.Bits.{IsLeast, IsEmpty};

use crate::bit_set::BitSet;
use std::alloc::{AllocError, Global};
use std::marker::Model;

/// A contract sees for each task whether it is in the set.
#[derive(Drop)]
pub(crate) struct TaskSet {
    members: BitSet,
    filled: BitSet,
}

impl Model for TaskSet {
    ghost use Rattle.std.specs.Prelude.{List, Bool};
    ghost use Rattle.task_desk.specs.Groups.{IsIndexed};

    ghost Value = { List Bool };

    ghost view = { λ s. s.members };

    ghost invariant = { λ s. IsIndexed s.members s.filled };
}

impl TaskSet {
    /// None of the tasks below the count is in the set.
    pub fn empty(alloc: Global, count: u32) -> Result<TaskSet, AllocError>
        requires { count ≤ 8192 }
        ensures { IfOk result (λ s. s ≡ replicate count false) }
    {
        let members = BitSet::empty(alloc, count)?;
        let filled = BitSet::empty(alloc, count.div_ceil(64))?;
        Ok(TaskSet { members, filled })
    }

    /// Puts a task in or takes it out. Constant.
    pub fn set(&mut self, task: u32, member: bool)
        requires { task < length self.old }
        ensures { self.new ≡ slice_set self.old task member }
    {
        let group = task / 64;
        self.members.set(task, member);
        self.filled
            .set(group, self.members.first_of(group).is_some());
    }

    /// The least task in the set. Constant: a look at two words, and at one of the tasks' own.
    pub fn first(&self) -> Option<u32>
        ensures { MatchOption result (IsEmpty self.now) (λ t. IsLeast self.now t) }
    {
        let Some(group) = self.filled.first() else {
            return None;
        };
        self.members.first_of(group)
    }
}
