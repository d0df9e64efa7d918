//! What is left once the workers have ended.
ghost use Rattle.std.specs.Prelude.{◌≡◌, ◌*◌, ◌+◌, ◌<◌, ◌≤◌, ◌^◌, ℕ, length, IfOk};
ghost use Rattle.rules.specs.Fold as fold;
ghost use Rattle.verdict_words.specs.Cells.{IsKnown};
ghost use Rattle.verdict_words.specs.Seats.{Moves};

use crate::checking::Checked;
use key_chains::{Decision, Job};
use rules::Flag;
use std::alloc::{AllocError, Global};
use verdict_words::VerdictSeat;

/// Settles a task if it is unknown, and counts it. All that it may wait for is known.
fn gather_one(job: &Job<'_, '_>, seat: &mut VerdictSeat<'_, '_>, task: u32) -> u32
    requires job { seat.old.job ≡ job.now }
    requires task { task < 2 * length job.now.candidates }
    requires before { (h : ℕ) → h < task → IsKnown seat.old.known h }
    ensures moves { Moves seat.old seat.new }
    ensures known { IsKnown seat.new.known task }
    ensures count { result ≤ 1 }
{
    if seat.knows(task) {
        return 0;
    }
    let Decision::Sure(()) = seat.settle(job, task) else {
        unreachable!()
    };
    1
}

/// The flag of a candidate, once what is unknown of its two verdicts is settled, and how many that were.
fn gather_both(job: &Job<'_, '_>, seat: &mut VerdictSeat<'_, '_>, i: u32) -> (Flag, u32)
    requires job { seat.old.job ≡ job.now }
    requires place { (i < length job.now.candidates) × (2 * i + 1 < 2 ^ 32) }
    requires before { (h : ℕ) → h < 2 * i → IsKnown seat.old.known h }
    ensures job { seat.new.job ≡ job.now }
    ensures known { (h : ℕ) → h < 2 * (i + 1) → IsKnown seat.new.known h }
    ensures flag { result.0 ≡ fold.flag job.now i }
    ensures count { result.1 ≤ 2 }
{
    let endorsements = gather_one(job, seat, 2 * i);
    let reads = gather_one(job, seat, 2 * i + 1);
    (seat.known_flag(i), endorsements + reads)
}

/// The flags, once what is unknown is settled in the order of the tasks, and how many verdicts that were.
pub(crate) fn gather(
    alloc: Global,
    job: &Job<'_, '_>,
    seat: &mut VerdictSeat<'_, '_>,
) -> Result<Checked, AllocError>
    requires { seat.old.job ≡ job.now }
    ensures { IfOk result (λ c. c.flags.items ≡ fold.flags job.now) }
{
    let count = job.len();
    let mut flags = Vec::with_capacity(alloc, count as usize)?;
    let mut gathered = 0;
    for i in 0..count {
        let (flag, unknown) = gather_both(job, seat, i);
        gathered += unknown;
        flags.push(flag)?;
    }
    Ok(Checked { flags, gathered })
}
