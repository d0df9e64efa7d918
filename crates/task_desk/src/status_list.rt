//! Statuses in two bytes each: workers that share a desk pass them from one processor to the next.
ghost use Rattle.std.specs.Prelude.{◌≡◌, ℕ, ◌-◌, ◌<◌, ◌≤◌, true, length, replicate, slice_set, IfOk, MatchOption};
ghost use Rattle.task_desk.specs.declared.status.Status.TheVariants.{Ready};
ghost use Rattle.task_desk.specs.Status.{is_ready, status_at};
ghost use Rattle.task_desk.specs.Desk.{NoneReady};
ghost use Rattle.task_desk.specs.Runs.{with_run};
ghost use Rattle.task_desk.specs.Codes as codes;

use crate::run::Run;
use crate::status::Status;
use std::alloc::{AllocError, Global};
use std::marker::Model;

/// A contract sees the status of each task.
#[derive(Drop)]
pub(crate) struct StatusList {
    codes: Vec<u16>,
}

impl Model for StatusList {
    ghost use Rattle.std.specs.Prelude.{List, map};
    ghost use Rattle.task_desk.specs.declared.status.Status.{Status};
    ghost use Rattle.task_desk.specs.Codes.{status_of};

    ghost Value = { List Status };

    ghost view = { λ s. map status_of s.codes.items };
}

fn status_of(code: u16) -> Status
    ensures { result ≡ codes.status_of code }
{
    match code {
        0 => Status::Ready,
        1 => Status::Handed,
        2 => Status::Out,
        3 => Status::Done,
        _ => Status::Parked(u32::from(code) - 4),
    }
}

fn code_of(status: Status) -> u16
    requires { codes.HasCode status }
    ensures { codes.status_of result ≡ status }
{
    match status {
        Status::Ready => 0,
        Status::Handed => 1,
        Status::Out => 2,
        Status::Done => 3,
        Status::Parked(h) => h as u16 + 4,
    }
}

fn zeros(alloc: Global, count: usize) -> Result<Vec<u16>, AllocError>
    ensures { IfOk result (λ codes. codes.items ≡ replicate count 0) }
{
    vec![in alloc; 0; count]
}

/// Writes a code at each place of a run.
fn put_run(codes: &mut [u16], run: Run, code: u16)
    requires order { run.from ≤ run.end }
    requires end { run.end ≤ length codes.old }
    ensures { codes.new ≡ with_run code codes.old run.from (run.end - run.from) }
{
    for task in run.from..run.end {
        codes[task as usize] = code;
    }
}

impl StatusList {
    /// So many tasks, all ready.
    pub fn all_ready(alloc: Global, count: usize) -> Result<StatusList, AllocError>
        ensures { IfOk result (λ list. list ≡ replicate count Ready) }
    {
        let codes = zeros(alloc, count)?;
        Ok(StatusList { codes })
    }

    /// How many tasks there are.
    pub fn len(&self) -> u32
        requires { length self.now ≤ 8192 }
        ensures { result ≡ length self.now }
    {
        self.codes.len() as u32
    }

    /// Where a task is; done, where there is no such task.
    pub fn at(&self, task: u32) -> Status
        ensures { result ≡ status_at self.now task }
    {
        match self.codes.get(task as usize) {
            Some(code) => status_of(*code),
            None => Status::Done,
        }
    }

    /// From now on a task is there.
    pub fn set(&mut self, task: u32, is: Status)
        requires task { task < length self.old }
        requires code { codes.HasCode is }
        ensures { self.new ≡ slice_set self.old task is }
    {
        self.codes[task as usize] = code_of(is);
    }

    /// From now on each task of a run is there.
    pub fn set_run(&mut self, run: Run, is: Status)
        requires order { run.from ≤ run.end }
        requires end { run.end ≤ length self.old }
        requires code { codes.HasCode is }
        ensures { self.new ≡ with_run is self.old run.from (run.end - run.from) }
    {
        let code = code_of(is);
        put_run(self.codes.as_mut_slice(), run, code);
    }

    /// True only where each task of a run is there.
    pub fn is_run(&self, run: Run, is: Status) -> bool
        requires end { run.end ≤ length self.now }
        requires code { codes.HasCode is }
        ensures { result ≡ true → (t : ℕ) → run.from ≤ t → t < run.end → status_at self.now t ≡ is }
    {
        let code = code_of(is);
        for task in run.from..run.end {
            if self.codes[task as usize] != code {
                return false;
            }
        }
        true
    }

    /// The least task that is ready.
    pub fn first_ready(&self) -> Option<u32>
        requires { length self.now ≤ 8192 }
        ensures { MatchOption result (NoneReady self.now) (λ t. is_ready (status_at self.now t) ≡ true) }
    {
        for task in 0..self.len() {
            if self.at(task).is_ready() {
                return Some(task);
            }
        }
        None
    }
}
