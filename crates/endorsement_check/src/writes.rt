//! The endorsement rule for each key that a candidate writes.
ghost use Rattle.std.specs.Prelude.{◌≡◌, ◌≤◌, Some, None, map, slice_get};
ghost use Rattle.std.specs.List.{list_all, list_any};
ghost use Rattle.std.specs.Str.{bytes_eq};
ghost use Rattle.rules.specs.Sure.{Sure};
ghost use Rattle.rules.specs.Endorsement as rule;
ghost use Rattle.rules.specs.Job.{candidate_at};
ghost use Rattle.rules.specs.Assignment.{touched_under};
ghost use Rattle.rules.specs.Depends.{EndorsementDepends};
ghost use Rattle.key_chains.specs.Job.{written_by};
ghost use Rattle.key_chains.specs.Known.{Known};
ghost use Rattle.key_chains.specs.Decided.{MatchDecision};

use crate::policies::{governing_over, meets};
use crate::writers::any_passed;
use key_chains::{Board, Decision, Job, StateKey, WrittenKey};
use policy_eval::Signers;
use values::NameRef;

/// Whether the key at this place among those that candidate i writes may be written.
fn may_write<B: Board>(
    job: &Job<'_, '_>,
    i: u32,
    signers: &Signers<'_>,
    key: &StateKey<'_>,
    place: usize,
    board: &mut B,
) -> Decision<bool>
    requires place { slice_get (written_by (candidate_at job.now i)) place ≡ Some key.now }
    requires board { i ≤ B.count board.old }
    ensures moves { B.moves board.old board.new }
    ensures decision { MatchDecision result
        (λ v. Sure (λ called n. rule.may_write job.now.definitions job.now.state (touched_under job.now called n) signers.now key.now) (B.known board.new).endorsed i v)
        (λ h. EndorsementDepends job.now i h × ((B.known board.new).endorsed h ≡ None)) }
{
    // what needs no other verdict goes first
    let row = job.row_of(job.key_number_of(i, place));
    if !meets(signers, governing_over(job, key, row)) {
        return Decision::Sure(false);
    }
    match any_passed(i, job.policy_writers(i, place), board) {
        Decision::Sure(touched) => Decision::Sure(!touched),
        Decision::Blocked(h) => Decision::Blocked(h),
    }
}

/// Whether each key that candidate i writes may be written.
pub(crate) fn may_write_all<B: Board>(
    job: &Job<'_, '_>,
    i: u32,
    signers: &Signers<'_>,
    written: &[WrittenKey<'_>],
    board: &mut B,
) -> Decision<bool>
    requires all { map (λ w. w.key) written.now ≡ written_by (candidate_at job.now i) }
    requires board { i ≤ B.count board.old }
    ensures moves { B.moves board.old board.new }
    ensures decision { MatchDecision result
        (λ v. Sure (λ called n. list_all (rule.may_write job.now.definitions job.now.state (touched_under job.now called n) signers.now) (written_by (candidate_at job.now i))) (B.known board.new).endorsed i v)
        (λ h. EndorsementDepends job.now i h × ((B.known board.new).endorsed h ≡ None)) }
{
    for (place, write) in written.iter().enumerate() {
        match may_write(job, i, signers, &write.key, place, board) {
            Decision::Sure(true) => {}
            Decision::Sure(false) => return Decision::Sure(false),
            Decision::Blocked(h) => return Decision::Blocked(h),
        }
    }
    Decision::Sure(true)
}

/// Whether one of the keys has this namespace.
pub(crate) fn has_writes(written: &[WrittenKey<'_>], namespace: &NameRef<'_>) -> bool
    ensures { result ≡ list_any (λ k. bytes_eq namespace.now k.0) (map (λ w. w.key) written.now) }
{
    for write in written {
        if namespace.is_same(&write.key.namespace()) {
            return true;
        }
    }
    false
}
