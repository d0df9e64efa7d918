//! Versions of keys where all verdicts are known.
ghost use Rattle.std.specs.Prelude.{◌≡◌, ◌≤◌, length};
ghost use Rattle.rules.specs.State.{version_in};
ghost use Rattle.rules.specs.Fold.{running};
ghost use Rattle.key_chains.specs.Shown.{Shows};

use key_chains::{Decision, Job, PlainBoard, StateKey};
use transaction::Version;

/// The version of a key once the valid transactions before i are applied.
pub(crate) fn version_at(
    job: &Job<'_, '_>,
    i: u32,
    key: &StateKey<'_>,
    board: &mut PlainBoard,
) -> Option<Version>
    requires place { i ≤ length job.now.candidates }
    requires shown { Shows job.now board.old }
    ensures value { result ≡ version_in (running job.now i).state key.now }
    ensures board { board.new ≡ board.old }
{
    let Decision::Sure(version) = mvcc::version_at(job, i, key, board) else {
        unreachable!()
    };
    version
}
