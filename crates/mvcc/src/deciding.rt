//! The read check.
ghost use Rattle.std.specs.Prelude.{◌≡◌, ◌<◌, ◌≤◌, ◌^◌, ℕ, None, IsTrue, IsSome, drop, flat_map, length, map};
ghost use Rattle.std.specs.List.{list_all};
ghost use Rattle.rules.specs.Sure.{Sure};
ghost use Rattle.rules.specs.Assignment.{state_under, reads_under};
ghost use Rattle.rules.specs.Depends.{set_looks_at, ReadsDepend};
ghost use Rattle.rules.specs.Job.{candidate_at};
ghost use Rattle.rules.specs.ReadWriteSets.{is_set_in_form, is_in_form};
ghost use Rattle.rules.specs.Reads.{set_verdict, first_fault, read_verdict};
ghost use Rattle.key_chains.specs.Job.{read_by, read_keys};
ghost use Rattle.key_chains.specs.Known.{Known, Grows, valid_in};
ghost use Rattle.key_chains.specs.Decided.{MatchDecision};
ghost use Rattle.mvcc.specs.ReadPlaces.{AreReadsFrom, keys_read};
ghost use Rattle.mvcc.specs.Waiting.{WaitsFor, sets_at};

use crate::ranges::ranges_hold;
use crate::reads::reads_hold;
use key_chains::{Board, Decision, Job};
use rules::ReadVerdict;
use transaction::{NsSet, Tx};

/// What the reads of a namespace, which stand from the first place on among the candidate's, and then its ranges find.
fn set_verdict<B: Board>(
    job: &Job<'_, '_>,
    i: u32,
    set: &NsSet<'_>,
    first: usize,
    board: &mut B,
) -> Decision<ReadVerdict>
    requires in_form { IsTrue (is_set_in_form set.now) }
    requires places { AreReadsFrom (read_by (candidate_at job.now i)) first set.now.name set.now.reads }
    requires board { i ≤ B.count board.old }
    ensures moves { B.moves board.old board.new }
    ensures decision { MatchDecision result
        (λ v. Sure (λ called n. set_verdict (state_under job.now called n) set.now) (valid_in (B.known board.new)) i v)
        (λ h. WaitsFor job.now (B.known board.new) i (set_looks_at set.now) h) }
{
    match reads_hold(job, i, &set.name, set.reads.as_slice(), first, board) {
        Decision::Sure(true) => {}
        Decision::Sure(false) => return Decision::Sure(ReadVerdict::Stale),
        Decision::Blocked(h) => return Decision::Blocked(h),
    }
    match ranges_hold(job, i, &set.name, set.ranges.as_slice(), board) {
        Decision::Sure(true) => Decision::Sure(ReadVerdict::Good),
        Decision::Sure(false) => Decision::Sure(ReadVerdict::Phantom),
        Decision::Blocked(h) => Decision::Blocked(h),
    }
}

/// The first fault of a candidate's namespaces.
fn sets_verdict<B: Board>(
    job: &Job<'_, '_>,
    i: u32,
    sets: &[NsSet<'_>],
    board: &mut B,
) -> Decision<ReadVerdict>
    requires in_form { IsTrue (list_all is_set_in_form sets.now) }
    requires all { read_by (candidate_at job.now i) ≡ flat_map keys_read sets.now }
    requires countable { length (read_by (candidate_at job.now i)) < 2 ^ 64 }
    requires board { i ≤ B.count board.old }
    ensures moves { B.moves board.old board.new }
    ensures decision { MatchDecision result
        (λ v. Sure (λ called n. first_fault (map (set_verdict (state_under job.now called n)) sets.now)) (valid_in (B.known board.new)) i v)
        (λ h. WaitsFor job.now (B.known board.new) i (sets_at sets.now) h) }
{
    let mut first = 0;
    for set in sets {
        match set_verdict(job, i, set, first, board) {
            Decision::Sure(ReadVerdict::Good) => {}
            Decision::Sure(ReadVerdict::Stale) => return Decision::Sure(ReadVerdict::Stale),
            Decision::Sure(ReadVerdict::Phantom) => return Decision::Sure(ReadVerdict::Phantom),
            Decision::Blocked(h) => return Decision::Blocked(h),
        }
        first += set.reads.len();
    }
    Decision::Sure(ReadVerdict::Good)
}

/// What the reads and ranges of candidate i find first; of a flagged one and of an update, which read nothing, that all is good.
///
/// `Sure` only with the answer that holds whatever the unknown flags before i will be. `Blocked(h)`: h is before i,
/// writes a key that i looks at, and its flag is unknown; the answer may be the same either way. Where all before i are
/// known at the call, it is `Sure`.
///
/// Namespaces go in order, and in each the reads before the ranges. A read costs a walk over the operations on its key
/// before i. A range costs, for each result, a search for its key, such a walk, and a look-up of its row where that leaves
/// the version open. For each row before the block in the compared part, and each key in its bounds that the block writes,
/// it costs a search among the results, and a walk where the key is none.
pub fn decide<B: Board>(job: &Job<'_, '_>, i: u32, board: &mut B) -> Decision<ReadVerdict>
    requires place { i < length job.now.candidates }
    requires board { B.count board.old ≡ length job.now.candidates }
    ensures moves { B.moves board.old board.new }
    ensures grows { Grows (B.known board.old) (B.known board.new) }
    ensures decision { MatchDecision result
        (λ v. Sure (reads_under job.now) (valid_in (B.known board.new)) i v)
        (λ h. ReadsDepend job.now i h × ((B.known board.new).flag h ≡ None)) }
    ensures decided { ((h : ℕ) → h < i → IsSome ((B.known board.old).flag h)) → MatchDecision result (λ _. Unit {0}) (λ _. ⊥) }
{
    match job.open_tx(i) {
        None => Decision::Sure(ReadVerdict::Good),
        Some(open_tx) => sets_verdict(job, i, open_tx.tx.namespaces.as_slice(), board),
    }
}
