//! Who touched a key first.
ghost use Rattle.std.specs.Prelude.{◌≡◌, ◌≤◌, length};
ghost use Rattle.reasons.specs.First.{first_below};
ghost use Rattle.reasons.specs.Endorsement.{touches};
ghost use Rattle.key_chains.specs.Shown.{Shows};

use crate::verdicts::has_passed;
use key_chains::{Job, PlainBoard, StateKey};

/// The first transaction before i that passed the endorsement rule and writes the policy of a key.
pub(crate) fn first_toucher(
    job: &Job<'_, '_>,
    i: u32,
    key: &StateKey<'_>,
    board: &PlainBoard,
) -> Option<u32>
    requires place { i ≤ length job.now.candidates }
    requires shown { Shows job.now board.now }
    ensures { result ≡ first_below (touches job.now key.now) i }
{
    let mut first = None;
    for h in job.policy_writers_of(key) {
        if h < i && has_passed(job, h, board) {
            first = Some(h);
        }
    }
    first
}
