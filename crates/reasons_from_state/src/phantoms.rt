//! Ranges that don't hold.
ghost use Rattle.std.specs.Prelude.{◌≡◌, ◌≤◌, ◌++◌, None, IsTrue, IfOk, OnOk, map, length};
ghost use Rattle.std.specs.List.{list_all};
ghost use Rattle.values.specs.Order.{bytes_cmp};
ghost use Rattle.std.specs.Ordering.{is_lt};
ghost use Rattle.rules.specs.Fold.{running};
ghost use Rattle.rules.specs.ReadWriteSets.{has_results_in_form, is_set_in_form};
ghost use Rattle.reasons.specs.Ranges as spec;
ghost use Rattle.key_chains.specs.Shown.{Shows};
ghost use Rattle.reasons_from_state.specs.Differences.{differs_at, is_ahead, least_where};
ghost use Rattle.reasons_from_state.specs.Found.{IsFoundInRange, IsFoundFirst, IsFoundInSet, IsFoundInSets};

use crate::place::Place;
use crate::versions::version_at;
use crate::writers::last_writer;
use key_chains::{PlainBoard, StateKey};
use mvcc::{compared_keys, is_compared, version_found};
use reasons::PhantomKey;
use reasons_before_state::queried_range;
use std::alloc::{AllocError, Global};
use transaction::{KeyVersion, NsSet, Range, Version};
use values::{KeyRef, NameRef};

/// The version of a key of the compared part.
fn version_there(
    at: &Place<'_>,
    namespace: &NameRef<'_>,
    range: &Range<'_>,
    key: &KeyRef<'_>,
    board: &mut PlainBoard,
) -> Option<Version>
    requires place { at.now.i ≤ length at.now.job.now.candidates }
    requires shown { Shows at.now.job.now board.old }
    ensures value { result ≡ spec.version_there (running at.now.job.now at.now.i).state namespace.now range.now key.now }
    ensures board { board.new ≡ board.old }
{
    if !is_compared(range, key) {
        return None;
    }
    version_at(at.job, at.i, &StateKey::new(namespace, key), board)
}

/// Whether a key has another version there than the one that was read.
fn differs(
    at: &Place<'_>,
    namespace: &NameRef<'_>,
    range: &Range<'_>,
    key: &KeyRef<'_>,
    board: &mut PlainBoard,
) -> bool
    requires place { at.now.i ≤ length at.now.job.now.candidates }
    requires shown { Shows at.now.job.now board.old }
    requires in_form { IsTrue (has_results_in_form range.now) }
    ensures value { result ≡ differs_at (spec.version_there (running at.now.job.now at.now.i).state namespace.now range.now) (spec.version_read range.now) key.now }
    ensures board { board.new ≡ board.old }
{
    version_there(at, namespace, range, key, board) != version_found(range, key)
}

fn is_ahead(least: &Option<KeyRef<'_>>, key: &KeyRef<'_>) -> bool
    ensures { result ≡ is_ahead least.now key.now }
{
    match least {
        None => true,
        Some(least) => key.as_slice().cmp(&least.as_slice()).is_lt(),
    }
}

/// The least of these keys where what is there and what was read differ.
fn least_difference<'a>(
    at: &Place<'_>,
    namespace: &NameRef<'_>,
    range: &Range<'_>,
    keys: &[KeyRef<'a>],
    board: &mut PlainBoard,
) -> Option<KeyRef<'a>>
    requires place { at.now.i ≤ length at.now.job.now.candidates }
    requires shown { Shows at.now.job.now board.old }
    requires in_form { IsTrue (has_results_in_form range.now) }
    ensures value { result ≡ least_where (differs_at (spec.version_there (running at.now.job.now at.now.i).state namespace.now range.now) (spec.version_read range.now)) None keys.now }
    ensures board { board.new ≡ board.old }
{
    let mut least = None;
    for key in keys {
        if is_ahead(&least, key) && differs(at, namespace, range, key, board) {
            least = Some(key.reborrow());
        }
    }
    least
}

fn add_results<'a>(keys: &mut Vec<KeyRef<'a>>, results: &[KeyVersion<'a>]) -> Result<(), AllocError>
    ensures { OnOk result (keys.new.items ≡ keys.old.items ++ map (λ x. x.key) results.now) }
{
    for found in results {
        keys.push(found.key.reborrow())?;
    }
    Ok(())
}

/// A key of a range as it was read and as it is there.
fn phantom_key(
    alloc: Global,
    at: &Place<'_>,
    namespace: &NameRef<'_>,
    range: &Range<'_>,
    key: &KeyRef<'_>,
    board: &mut PlainBoard,
) -> Result<PhantomKey, AllocError>
    requires place { at.now.i ≤ length at.now.job.now.candidates }
    requires shown { Shows at.now.job.now board.old }
    requires in_form { IsTrue (has_results_in_form range.now) }
    ensures value { IfOk result (λ x. x ≡ spec.phantom_key at.now.job.now at.now.i namespace.now range.now key.now) }
    ensures board { board.new ≡ board.old }
{
    let state_key = StateKey::new(namespace, key);
    let is_there = version_at(at.job, at.i, &state_key, board).is_some();
    Ok(PhantomKey {
        range: queried_range(alloc, namespace, range)?,
        exhausted: range.exhausted,
        key: key.copy(alloc)?,
        read: version_found(range, key),
        there: version_there(at, namespace, range, key, board),
        writer: last_writer(at.job, at.i, &state_key, is_there, board),
    })
}

/// The first key of a range where what is there and what was read differ. Looks at the results, the rows before the
/// block in the compared part, and the keys in the range's bounds that the block writes.
fn range_conflict<'a>(
    alloc: Global,
    at: &Place<'a>,
    namespace: &NameRef<'a>,
    range: &Range<'a>,
    board: &mut PlainBoard,
) -> Result<Option<PhantomKey>, AllocError>
    requires place { at.now.i ≤ length at.now.job.now.candidates }
    requires shown { Shows at.now.job.now board.old }
    requires in_form { IsTrue (has_results_in_form range.now) }
    ensures value { IfOk result (λ x. IsFoundInRange at.now.job.now at.now.i namespace.now range.now x) }
    ensures board { board.new ≡ board.old }
{
    let mut keys = compared_keys(alloc, at.job, namespace, range)?;
    add_results(&mut keys, range.results.as_slice())?;
    let Some(key) = least_difference(at, namespace, range, keys.as_slice(), board) else {
        return Ok(None);
    };
    Ok(Some(phantom_key(alloc, at, namespace, range, &key, board)?))
}

fn ranges_conflict<'a>(
    alloc: Global,
    at: &Place<'a>,
    namespace: &NameRef<'a>,
    ranges: &[Range<'a>],
    board: &mut PlainBoard,
) -> Result<Option<PhantomKey>, AllocError>
    requires place { at.now.i ≤ length at.now.job.now.candidates }
    requires shown { Shows at.now.job.now board.old }
    requires in_form { IsTrue (list_all has_results_in_form ranges.now) }
    ensures value { IfOk result (λ x. IsFoundFirst (IsFoundInRange at.now.job.now at.now.i namespace.now) ranges.now x) }
    ensures board { board.new ≡ board.old }
{
    for range in ranges {
        if let Some(key) = range_conflict(alloc, at, namespace, range, board)? {
            return Ok(Some(key));
        }
    }
    Ok(None)
}

/// The first range of a transaction that doesn't hold, with the first key that differs.
pub(crate) fn phantom_conflict<'a>(
    alloc: Global,
    at: &Place<'a>,
    sets: &[NsSet<'a>],
    board: &mut PlainBoard,
) -> Result<Option<PhantomKey>, AllocError>
    requires place { at.now.i ≤ length at.now.job.now.candidates }
    requires shown { Shows at.now.job.now board.old }
    requires in_form { IsTrue (list_all is_set_in_form sets.now) }
    ensures value { IfOk result (λ x. IsFoundInSets at.now.job.now at.now.i sets.now x) }
    ensures board { board.new ≡ board.old }
{
    for set in sets {
        let ranges = set.ranges.as_slice();
        if let Some(key) = ranges_conflict(alloc, at, &set.name, ranges, board)? {
            return Ok(Some(key));
        }
    }
    Ok(None)
}
