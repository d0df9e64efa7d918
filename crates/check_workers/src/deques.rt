//! Tasks in deques: each worker has one of its own, and others steal from it.
ghost use Rattle.std.specs.Prelude.{◌≡◌, ◌<◌, ℕ, IfSome, IfErr};
ghost use Rattle.std.specs.Prelude.{⊤};
ghost use Rattle.crossbeam_deque.specs.Steals.{MatchSteal};

use crossbeam_deque::protocol::{Outcome, Protocol};
use crossbeam_deque::{Steal, Stealer, Worker};
use std::alloc::{AllocError, Global};
use std::marker::{Brand, PhantomData};
use std::sync::Wait;

/// How many tasks a worker gives itself at once if others may steal some of them.
pub(crate) const BATCH: usize = 32;

/// How many tasks a job has. The code that makes deques for a job picks it.
pub trait Tasks {
    ghost tasks: { ℕ };
}

impl Tasks for Brand {
    ghost tasks = { 0 };
}

/// Each item of a deque is the number of a task.
pub struct Below<J> {
    of: PhantomData<J>,
}

impl<J: Tasks> Protocol<u32, ()> for Below<J> {
    ghost use Rattle.std.specs.Prelude.{◌<◌, All};

    ghost holds = { λ items _. All (λ task. task < J.tasks) items };

    ghost first = { tt };

    ghost guest = { tt };
}

impl<J: Tasks> Outcome<u32, ()> for Below<J> {
    ghost use Rattle.std.specs.Prelude.{◌<◌, All};

    ghost then = { λ _ items _. All (λ task. task < J.tasks) items };
}

/// The end of a deque at which its worker pushes and pops, first in first out.
pub(crate) type Owner<J> = Worker<u32, Global, (), Below<J>>;

/// The end from which others steal.
pub(crate) type Thief<J> = Stealer<u32, Global, (), Below<J>>;

pub(crate) fn push<J: Tasks>(own: &mut Owner<J>, task: u32) -> Result<(), u32>
    requires { task < J.tasks }
    ensures { IfErr result (λ back. back ≡ task) }
{
    own.push_as::<Below<J>>(task)
}

pub(crate) fn pop<J: Tasks>(own: &mut Owner<J>) -> Option<u32>
    ensures { IfSome result (λ task. task < J.tasks) }
{
    own.pop_as::<Below<J>>()
}

fn steal_from<J: Tasks>(thief: &Thief<J>) -> Steal<u32>
    ensures { MatchSteal result ⊤ ⊤ (λ task. task < J.tasks) }
{
    let mut pass = thief.pass();
    thief.steal_as::<Below<J>>(&mut pass)
}

/// A pass over deques, up to the first task that is stolen. `Empty` if each was empty.
fn pass_over<J: Tasks>(thieves: &[Thief<J>]) -> Steal<u32>
    ensures { MatchSteal result ⊤ ⊤ (λ task. task < J.tasks) }
{
    let mut is_missed = false;
    for thief in thieves {
        match steal_from(thief) {
            Steal::Success(task) => return Steal::Success(task),
            Steal::Retry => is_missed = true,
            Steal::Empty => {}
        }
    }
    if is_missed {
        Steal::Retry
    } else {
        Steal::Empty
    }
}

/// A stolen task; none if each deque was empty in one pass.
pub(crate) fn steal<J: Tasks, R: Wait>(rt: &R, thieves: &[Thief<J>]) -> Option<u32>
    ensures { IfSome result (λ task. task < J.tasks) }
{
    for _ in rt.forever() {
        match pass_over(thieves) {
            Steal::Success(task) => return Some(task),
            Steal::Empty => return None,
            Steal::Retry => {}
        }
    }
    unreachable!()
}

fn add_deque<J: Tasks>(
    alloc: Global,
    owners: &mut Vec<Owner<J>>,
    thieves: &mut Vec<Thief<J>>,
) -> Result<(), AllocError> {
    let owner: Owner<J> = Worker::fifo_as(alloc, BATCH)?;
    thieves.push(owner.stealer()?)?;
    owners.push(owner)?;
    Ok(())
}

/// Deques for this many workers, all empty. A worker whose deque gets no memory is skipped.
pub(crate) fn deques<J: Tasks>(alloc: Global, workers: usize) -> (Vec<Owner<J>>, Vec<Thief<J>>) {
    let mut owners = Vec::new(alloc);
    let mut thieves = Vec::new(alloc);
    for _ in 0..workers {
        if add_deque(alloc, &mut owners, &mut thieves).is_err() {
            break;
        }
    }
    (owners, thieves)
}
