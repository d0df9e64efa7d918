//! The version of a key before a candidate.
ghost use Rattle.std.specs.Prelude.{◌≡◌, ◌<◌, ◌≤◌, ℕ, None, Some, IsSome, length, slice_get};
ghost use Rattle.rules.specs.State.{StateKey, version_in};
ghost use Rattle.rules.specs.Job.{candidate_at};
ghost use Rattle.key_chains.specs.Job.{read_by};
ghost use Rattle.rules.specs.Sure.{Sure};
ghost use Rattle.rules.specs.Assignment.{version_under};
ghost use Rattle.rules.specs.Depends.{VersionDepends};
ghost use Rattle.key_chains.specs.Known.{Known, Grows, valid_in};
ghost use Rattle.key_chains.specs.Decided.{MatchDecision};
ghost use Rattle.key_chains.specs.Operations as chains;

use crate::walk::{Finding, noted_over, walk};
use key_chains::{Board, Decision, Job, Operations, StateKey};
use transaction::Version;

fn version_before(job: &Job<'_, '_>, key: &StateKey<'_>) -> Option<Version>
    ensures { result ≡ version_in job.now.state key.now }
{
    match job.row(key) {
        None => None,
        Some(row) => Some(row.version),
    }
}

/// The version of a key over the operations on it before candidate i. The row before the block is looked up only where
/// they leave that open.
pub(crate) fn version_over<B: Board>(
    job: &Job<'_, '_>,
    i: u32,
    key: &StateKey<'_>,
    operations: Operations<'_>,
    board: &mut B,
) -> Decision<Option<Version>>
    requires all { operations ≡ chains.operations job.now.candidates key.now i }
    requires board { i ≤ B.count board.old }
    ensures moves { B.moves board.old board.new }
    ensures decision { MatchDecision result
        (λ v. Sure (version_under job.now key.now) (valid_in (B.known board.new)) i v)
        (λ h. VersionDepends job.now key.now i h × ((B.known board.new).flag h ≡ None)) }
{
    match walk(job.number(), i, operations, board) {
        Decision::Sure(Finding::Open(noted)) => {
            Decision::Sure(noted_over(noted, version_before(job, key)))
        }
        Decision::Sure(Finding::Settled(version)) => Decision::Sure(version),
        Decision::Blocked(h) => Decision::Blocked(h),
    }
}

fn version_before_read(job: &Job<'_, '_>, i: u32, place: usize) -> Option<Version>
    requires { place < length (read_by (candidate_at job.now i)) }
    ensures { (k : StateKey) → slice_get (read_by (candidate_at job.now i)) place ≡ Some k → result ≡ version_in job.now.state k }
{
    match job.row_of_read(i, place) {
        None => None,
        Some(row) => Some(row.version),
    }
}

/// The version of the key that candidate i reads at this place among its reads, over the operations on it before that candidate. Both
/// these and the row before the block were found before.
pub(crate) fn version_of_read<B: Board>(
    job: &Job<'_, '_>,
    i: u32,
    place: usize,
    board: &mut B,
) -> Decision<Option<Version>>
    requires place { place < length (read_by (candidate_at job.now i)) }
    requires board { i ≤ B.count board.old }
    ensures moves { B.moves board.old board.new }
    ensures decision { (k : StateKey) → slice_get (read_by (candidate_at job.now i)) place ≡ Some k → MatchDecision result
        (λ v. Sure (version_under job.now k) (valid_in (B.known board.new)) i v)
        (λ h. VersionDepends job.now k i h × ((B.known board.new).flag h ≡ None)) }
{
    let operations = job.operations_on_read(i, place);
    match walk(job.number(), i, operations, board) {
        Decision::Sure(Finding::Open(noted)) => {
            Decision::Sure(noted_over(noted, version_before_read(job, i, place)))
        }
        Decision::Sure(Finding::Settled(version)) => Decision::Sure(version),
        Decision::Blocked(h) => Decision::Blocked(h),
    }
}

/// The version that a key has once the valid candidates before i are applied in order, or none where it is absent then. From
/// the number of candidates on, that is the version behind the block.
///
/// `Sure` only with the version that holds whatever the unknown flags before i will be. `Blocked(h)`: h is before i,
/// writes the key, and its flag is unknown. Where all before i are known at the call, the answer is `Sure`. The
/// search for the key's operations and, where they leave it open, for its row before the block is logarithmic; beside
/// that the cost is linear in the operations down to the newest that counts and writes or deletes the value.
pub fn version_at<B: Board>(
    job: &Job<'_, '_>,
    i: u32,
    key: &StateKey<'_>,
    board: &mut B,
) -> Decision<Option<Version>>
    requires { B.count board.old ≡ length job.now.candidates }
    ensures moves { B.moves board.old board.new }
    ensures grows { Grows (B.known board.old) (B.known board.new) }
    ensures decision { MatchDecision result
        (λ v. Sure (version_under job.now key.now) (valid_in (B.known board.new)) i v)
        (λ h. VersionDepends job.now key.now i h × ((B.known board.new).flag h ≡ None)) }
    ensures decided { ((h : ℕ) → h < i → IsSome ((B.known board.old).flag h)) → MatchDecision result (λ _. Unit {0}) (λ _. ⊥) }
{
    let i = i.min(job.len());
    version_over(job, i, key, job.operations_before(i, key), board)
}
