//! The range rule, as far as the earlier flags are known.
ghost use Rattle.std.specs.Prelude.{◌≡◌, ◌≤◌, true, None, IsTrue, map};
ghost use Rattle.std.specs.List.{list_all};
ghost use Rattle.rules.specs.Sure.{Sure};
ghost use Rattle.rules.specs.Assignment.{state_under, version_under};
ghost use Rattle.rules.specs.Ranges.{is_compared, range_holds};
ghost use Rattle.rules.specs.ReadWriteSets.{has_results_in_form};
ghost use Rattle.key_chains.specs.Known.{Known, valid_in};
ghost use Rattle.key_chains.specs.Decided.{MatchDecision};
ghost use Rattle.mvcc.specs.RangeChecks as checks;
ghost use Rattle.mvcc.specs.Waiting.{WaitsFor, range_at, ranges_at};

use crate::bounds::{is_compared, is_result};
use crate::version::version_over;
use key_chains::{Board, Decision, Job, StateKey};
use state_db::Rows;
use transaction::{KeyVersion, Range, Version};
use values::{KeyRef, NameRef};

/// The version of a key of the compared part.
fn version_there<B: Board>(
    job: &Job<'_, '_>,
    i: u32,
    namespace: &NameRef<'_>,
    range: &Range<'_>,
    key: &KeyRef<'_>,
    board: &mut B,
) -> Decision<Option<Version>>
    requires compared { is_compared range.now key.now ≡ true }
    requires board { i ≤ B.count board.old }
    ensures moves { B.moves board.old board.new }
    ensures decision { MatchDecision result
        (λ v. Sure (version_under job.now (namespace.now, key.now)) (valid_in (B.known board.new)) i v)
        (λ h. WaitsFor job.now (B.known board.new) i (range_at namespace.now range.now) h) }
{
    let key = StateKey::new(namespace, key);
    version_over(job, i, &key, job.operations_before(i, &key), board)
}

/// Whether a result is in the compared part, and has its version there.
fn is_found<B: Board>(
    job: &Job<'_, '_>,
    i: u32,
    namespace: &NameRef<'_>,
    range: &Range<'_>,
    found: &KeyVersion<'_>,
    board: &mut B,
) -> Decision<bool>
    requires board { i ≤ B.count board.old }
    ensures moves { B.moves board.old board.new }
    ensures decision { MatchDecision result
        (λ v. Sure (λ called n. checks.is_found (state_under job.now called n) namespace.now range.now found.now) (valid_in (B.known board.new)) i v)
        (λ h. WaitsFor job.now (B.known board.new) i (range_at namespace.now range.now) h) }
{
    if !is_compared(range, &found.key) {
        return Decision::Sure(false);
    }
    match version_there(job, i, namespace, range, &found.key, board) {
        Decision::Sure(version) => Decision::Sure(version == Some(found.version)),
        Decision::Blocked(h) => Decision::Blocked(h),
    }
}

/// Whether each of these results is in the compared part, and has its version there.
fn are_found<B: Board>(
    job: &Job<'_, '_>,
    i: u32,
    namespace: &NameRef<'_>,
    range: &Range<'_>,
    results: &[KeyVersion<'_>],
    board: &mut B,
) -> Decision<bool>
    requires board { i ≤ B.count board.old }
    ensures moves { B.moves board.old board.new }
    ensures decision { MatchDecision result
        (λ v. Sure (λ called n. list_all (checks.is_found (state_under job.now called n) namespace.now range.now) results.now) (valid_in (B.known board.new)) i v)
        (λ h. WaitsFor job.now (B.known board.new) i (range_at namespace.now range.now) h) }
{
    for found in results {
        match is_found(job, i, namespace, range, found, board) {
            Decision::Sure(true) => {}
            Decision::Sure(false) => return Decision::Sure(false),
            Decision::Blocked(h) => return Decision::Blocked(h),
        }
    }
    Decision::Sure(true)
}

/// Whether a key of the compared part is a result or absent.
fn is_listed<B: Board>(
    job: &Job<'_, '_>,
    i: u32,
    namespace: &NameRef<'_>,
    range: &Range<'_>,
    key: &KeyRef<'_>,
    board: &mut B,
) -> Decision<bool>
    requires in_form { IsTrue (has_results_in_form range.now) }
    requires compared { is_compared range.now key.now ≡ true }
    requires board { i ≤ B.count board.old }
    ensures moves { B.moves board.old board.new }
    ensures decision { MatchDecision result
        (λ v. Sure (λ called n. checks.is_listed (state_under job.now called n) namespace.now range.now key.now) (valid_in (B.known board.new)) i v)
        (λ h. WaitsFor job.now (B.known board.new) i (range_at namespace.now range.now) h) }
{
    if is_result(range, key) {
        return Decision::Sure(true);
    }
    match version_there(job, i, namespace, range, key, board) {
        Decision::Sure(version) => Decision::Sure(version.is_none()),
        Decision::Blocked(h) => Decision::Blocked(h),
    }
}

/// Whether each key of rows in the range's bounds that is compared is a result or absent. Stops at the first that isn't
/// compared, since none behind it is.
fn are_rows_listed<B: Board>(
    job: &Job<'_, '_>,
    i: u32,
    namespace: &NameRef<'_>,
    range: &Range<'_>,
    rows: Rows<'_>,
    board: &mut B,
) -> Decision<bool>
    requires in_form { IsTrue (has_results_in_form range.now) }
    requires stop { checks.StopCompared range.now (map (λ e. e.0.1) rows) }
    requires board { i ≤ B.count board.old }
    ensures moves { B.moves board.old board.new }
    ensures decision { MatchDecision result
        (λ v. Sure (λ called n. list_all (checks.is_listed (state_under job.now called n) namespace.now range.now) (map (λ e. e.0.1) rows.entry)) (valid_in (B.known board.new)) i v)
        (λ h. WaitsFor job.now (B.known board.new) i (range_at namespace.now range.now) h) }
{
    for row in rows {
        let key = row.key();
        if !is_compared(range, &key) {
            return Decision::Sure(true);
        }
        match is_listed(job, i, namespace, range, &key, board) {
            Decision::Sure(true) => {}
            Decision::Sure(false) => return Decision::Sure(false),
            Decision::Blocked(h) => return Decision::Blocked(h),
        }
    }
    Decision::Sure(true)
}

/// Whether each of these keys, in any order, isn't compared, is a result, or is absent.
fn are_keys_listed<B: Board>(
    job: &Job<'_, '_>,
    i: u32,
    namespace: &NameRef<'_>,
    range: &Range<'_>,
    keys: &[StateKey<'_>],
    board: &mut B,
) -> Decision<bool>
    requires in_form { IsTrue (has_results_in_form range.now) }
    requires board { i ≤ B.count board.old }
    ensures moves { B.moves board.old board.new }
    ensures decision { MatchDecision result
        (λ v. Sure (λ called n. list_all (checks.is_listed (state_under job.now called n) namespace.now range.now) (map (λ k. k.1) keys.now)) (valid_in (B.known board.new)) i v)
        (λ h. WaitsFor job.now (B.known board.new) i (range_at namespace.now range.now) h) }
{
    for key in keys {
        let key = key.key();
        if !is_compared(range, &key) {
            continue;
        }
        match is_listed(job, i, namespace, range, &key, board) {
            Decision::Sure(true) => {}
            Decision::Sure(false) => return Decision::Sure(false),
            Decision::Blocked(h) => return Decision::Blocked(h),
        }
    }
    Decision::Sure(true)
}

/// The keys in a range's bounds that may have a version there: of rows before the block, and those that the block writes.
#[derive(Drop)]
struct InBounds<'r> {
    rows: Rows<'r>,
    written: &'r [StateKey<'r>],
}

/// Whether a range has what it found, over its results and the keys in its bounds.
fn range_over<B: Board>(
    job: &Job<'_, '_>,
    i: u32,
    namespace: &NameRef<'_>,
    range: &Range<'_>,
    in_bounds: InBounds<'_>,
    board: &mut B,
) -> Decision<bool>
    requires in_form { IsTrue (has_results_in_form range.now) }
    requires stop { checks.StopCompared range.now (map (λ e. e.0.1) in_bounds.rows) }
    requires board { i ≤ B.count board.old }
    ensures moves { B.moves board.old board.new }
    ensures decision { MatchDecision result
        (λ v. Sure (λ called n. checks.is_as_found (state_under job.now called n) namespace.now range.now (map (λ e. e.0.1) in_bounds.entry.rows) (map (λ k. k.1) in_bounds.entry.written.now)) (valid_in (B.known board.new)) i v)
        (λ h. WaitsFor job.now (B.known board.new) i (range_at namespace.now range.now) h) }
{
    let InBounds { rows, written } = in_bounds;
    match are_found(job, i, namespace, range, range.results.as_slice(), board) {
        Decision::Sure(true) => {}
        Decision::Sure(false) => return Decision::Sure(false),
        Decision::Blocked(h) => return Decision::Blocked(h),
    }
    match are_rows_listed(job, i, namespace, range, rows, board) {
        Decision::Sure(true) => {}
        Decision::Sure(false) => return Decision::Sure(false),
        Decision::Blocked(h) => return Decision::Blocked(h),
    }
    are_keys_listed(job, i, namespace, range, written, board)
}

/// Whether a range holds.
fn range_holds<B: Board>(
    job: &Job<'_, '_>,
    i: u32,
    namespace: &NameRef<'_>,
    range: &Range<'_>,
    board: &mut B,
) -> Decision<bool>
    requires in_form { IsTrue (has_results_in_form range.now) }
    requires board { i ≤ B.count board.old }
    ensures moves { B.moves board.old board.new }
    ensures decision { MatchDecision result
        (λ v. Sure (λ called n. range_holds (state_under job.now called n) namespace.now range.now) (valid_in (B.known board.new)) i v)
        (λ h. WaitsFor job.now (B.known board.new) i (range_at namespace.now range.now) h) }
{
    let rows = job.rows_between(namespace, &range.start, &range.end);
    let written = job.keys_between(namespace, &range.start, &range.end);
    let in_bounds = InBounds { rows, written };
    range_over(job, i, namespace, range, in_bounds, board)
}

/// Whether each range of a namespace holds.
pub(crate) fn ranges_hold<B: Board>(
    job: &Job<'_, '_>,
    i: u32,
    namespace: &NameRef<'_>,
    ranges: &[Range<'_>],
    board: &mut B,
) -> Decision<bool>
    requires in_form { IsTrue (list_all has_results_in_form ranges.now) }
    requires board { i ≤ B.count board.old }
    ensures moves { B.moves board.old board.new }
    ensures decision { MatchDecision result
        (λ v. Sure (λ called n. list_all (range_holds (state_under job.now called n) namespace.now) ranges.now) (valid_in (B.known board.new)) i v)
        (λ h. WaitsFor job.now (B.known board.new) i (ranges_at namespace.now ranges.now) h) }
{
    for range in ranges {
        match range_holds(job, i, namespace, range, board) {
            Decision::Sure(true) => {}
            Decision::Sure(false) => return Decision::Sure(false),
            Decision::Blocked(h) => return Decision::Blocked(h),
        }
    }
    Decision::Sure(true)
}
