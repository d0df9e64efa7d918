//! The read rule, as far as the earlier flags are known.
ghost use Rattle.std.specs.Prelude.{◌≡◌, ◌≤◌, None, Some, slice_get};
ghost use Rattle.std.specs.List.{list_all};
ghost use Rattle.rules.specs.Sure.{Sure};
ghost use Rattle.rules.specs.Assignment.{state_under};
ghost use Rattle.rules.specs.Depends.{VersionDepends};
ghost use Rattle.rules.specs.Job.{candidate_at};
ghost use Rattle.rules.specs.Reads.{read_holds};
ghost use Rattle.key_chains.specs.Job.{read_by};
ghost use Rattle.key_chains.specs.Known.{Known, valid_in};
ghost use Rattle.key_chains.specs.Decided.{MatchDecision};
ghost use Rattle.mvcc.specs.ReadPlaces.{AreReadsFrom};
ghost use Rattle.mvcc.specs.Waiting.{WaitsFor, reads_at};

use crate::version::version_of_read;
use key_chains::{Board, Decision, Job};
use transaction::Read;
use values::NameRef;

/// Whether the version that was read, at this place among the candidate's reads, is the key's.
fn read_holds<B: Board>(
    job: &Job<'_, '_>,
    i: u32,
    namespace: &NameRef<'_>,
    read: &Read<'_>,
    place: usize,
    board: &mut B,
) -> Decision<bool>
    requires place { slice_get (read_by (candidate_at job.now i)) place ≡ Some (namespace.now, read.now.key) }
    requires board { i ≤ B.count board.old }
    ensures moves { B.moves board.old board.new }
    ensures decision { MatchDecision result
        (λ v. Sure (λ called n. read_holds (state_under job.now called n) namespace.now read.now) (valid_in (B.known board.new)) i v)
        (λ h. VersionDepends job.now (namespace.now, read.now.key) i h × ((B.known board.new).flag h ≡ None)) }
{
    // it is that of the key at this place, and stands here for the clauses
    let _namespace = namespace;
    match version_of_read(job, i, place, board) {
        Decision::Sure(version) => Decision::Sure(version == read.version),
        Decision::Blocked(h) => Decision::Blocked(h),
    }
}

/// Whether the reads of a namespace, which stand from the first place on among the candidate's, hold.
pub(crate) fn reads_hold<B: Board>(
    job: &Job<'_, '_>,
    i: u32,
    namespace: &NameRef<'_>,
    reads: &[Read<'_>],
    first: usize,
    board: &mut B,
) -> Decision<bool>
    requires places { AreReadsFrom (read_by (candidate_at job.now i)) first namespace.now reads.now }
    requires board { i ≤ B.count board.old }
    ensures moves { B.moves board.old board.new }
    ensures decision { MatchDecision result
        (λ v. Sure (λ called n. list_all (read_holds (state_under job.now called n) namespace.now) reads.now) (valid_in (B.known board.new)) i v)
        (λ h. WaitsFor job.now (B.known board.new) i (reads_at namespace.now reads.now) h) }
{
    for (n, read) in reads.iter().enumerate() {
        match read_holds(job, i, namespace, read, first + n, board) {
            Decision::Sure(true) => {}
            Decision::Sure(false) => return Decision::Sure(false),
            Decision::Blocked(h) => return Decision::Blocked(h),
        }
    }
    Decision::Sure(true)
}
