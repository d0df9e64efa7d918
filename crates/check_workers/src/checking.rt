ghost use Rattle.std.specs.Prelude.{◌≡◌, ◌<◌, ◌*◌, ◌≤◌, length, IfOk};
ghost use Rattle.rules.specs.Fold as fold;
ghost use Rattle.check_workers.specs.Limits.{max_workers};

use crate::gathering::gather;
use crate::turns::Turns;
use crate::workers::run;
use gates::Gate;
use key_chains::Job;
use rules::Flag;
use std::alloc::{AllocError, Global};
use std::marker::Brand;
use std::sync::Wait;
use std::thread::Threads;
use verdict_words::{Lent, Steps, VerdictSeat, open};

/// What the workers found.
#[derive(Drop)]
pub struct Checked {
    /// The flag of each candidate.
    pub flags: Vec<Flag>,
    /// How many verdicts no worker had found, out of two for each candidate. No contract states it.
    pub gathered: u32,
}

/// Runs this many workers over the words of a job, until nothing is left for them.
fn find_by_workers<R: Threads + Wait + Sync, G: Gate + Sync>(
    rt: &R,
    alloc: Global,
    lent: &Lent<'_>,
    steps: &Steps<'_>,
    workers: usize,
    gate: &G,
) -> Result<(), AllocError>
    requires job { steps.now.key ≡ lent.now }
    requires words { steps.now.table_id.words ≡ 2 * length lent.now.candidates }
    requires some { 0 < length lent.now.candidates }
    requires workers { workers ≤ max_workers }
{
    let turns = Turns::new(alloc, lent.job().len(), workers)?;
    run::<Brand, R, G>(rt, alloc, lent, steps, &turns, gate);
    Ok(())
}

/// The flags of a job that has candidates.
fn check_some<'j, R: Threads + Wait + Sync, G: Gate + Sync>(
    rt: &R,
    alloc: Global,
    job: &'j Job<'j, 'j>,
    workers: usize,
    gate: &G,
) -> Result<Checked, AllocError>
    requires workers { (1 ≤ workers) × (workers ≤ max_workers) }
    requires some { 0 < length job.now.candidates }
    ensures { IfOk result (λ c. c.flags.items ≡ fold.flags job.now) }
{
    let lent = Lent::new(job);
    let (words, own) = open(alloc, &lent)?;
    let steps = &words.shared;
    find_by_workers(
        rt,
        alloc,
        &lent,
        steps,
        workers.min(job.len() as usize),
        gate,
    )?;
    let mut seat = VerdictSeat::first(steps, own);
    gather(alloc, job, &mut seat)
}

/// The flags of a job's candidates, found by this many workers, each but one in a thread of its own, no matter in which
/// order they reach the checks. Each passes the gate before each check.
///
/// No more workers are started than there are candidates, since the two checks of one come one after the other. A
/// worker that can't be started, or gets no deque, is skipped; what no worker has found is found here, in order. Takes
/// two words for each candidate, a desk of tasks, a deque for each worker, and what threads take. Costs what the checks
/// cost, each tried again once for each time that it was blocked.
pub fn check_all<R: Threads + Wait + Sync, G: Gate + Sync>(
    rt: &R,
    alloc: Global,
    job: &Job<'_, '_>,
    workers: usize,
    gate: &G,
) -> Result<Checked, AllocError>
    requires workers { (1 ≤ workers) × (workers ≤ max_workers) }
    ensures { IfOk result (λ c. c.flags.items ≡ fold.flags job.now) }
{
    if job.len() == 0 {
        return Ok(Checked {
            flags: Vec::new(alloc),
            gathered: 0,
        });
    }
    check_some(rt, alloc, job, workers, gate)
}
