//! Whether read and write sets are well-formed, but for the policies that they write.
ghost use Rattle.std.specs.Prelude.{◌≡◌, map, IfOk};
ghost use Rattle.std.specs.List.{list_all};
ghost use Rattle.rules.specs.Ranges.{is_within};
ghost use Rattle.rules.specs.ReadWriteSets.{has_results_in_form};
ghost use Rattle.candidates.specs.Form.{have_lists_in_form, are_lists_in_form};

use crate::labels::{are_distinct, are_rising};
use rules::is_within;
use std::alloc::{AllocError, Global};
use transaction::{KeyVersion, NsSet, Range, Tx};
use values::BoundRef;

fn are_within(start: &BoundRef<'_>, end: &BoundRef<'_>, results: &[KeyVersion<'_>]) -> bool
    ensures { result ≡ list_all (λ x. is_within start.now end.now x.key) results.now }
{
    for found in results {
        if !is_within(start, end, &found.key) {
            return false;
        }
    }
    true
}

/// Whether the keys strictly rise, and none leaves the range.
fn has_results_in_form(range: &Range<'_>) -> bool
    ensures { result ≡ has_results_in_form range.now }
{
    let results = range.results.as_slice();
    are_rising(results) && are_within(&range.start, &range.end, results)
}

fn have_results_in_form(ranges: &[Range<'_>]) -> bool
    ensures { result ≡ list_all has_results_in_form ranges.now }
{
    for range in ranges {
        if !has_results_in_form(range) {
            return false;
        }
    }
    true
}

fn have_lists_in_form(alloc: Global, set: &NsSet<'_>) -> Result<bool, AllocError>
    ensures { IfOk result (λ fine. fine ≡ have_lists_in_form set.now) }
{
    Ok(
        are_distinct(alloc, set.reads.as_slice())?
            && are_distinct(alloc, set.writes.as_slice())?
            && are_distinct(alloc, set.policy_writes.as_slice())?
            && have_results_in_form(set.ranges.as_slice()),
    )
}

/// Whether no namespace repeats, nor a key in one of its lists, and the results of ranges rise within them. Costs that
/// of [`are_distinct`] for each list, and one pass over results.
pub(crate) fn are_lists_in_form(alloc: Global, tx: &Tx<'_>) -> Result<bool, AllocError>
    ensures { IfOk result (λ fine. fine ≡ are_lists_in_form tx.now) }
{
    let sets = tx.namespaces.as_slice();
    if !are_distinct(alloc, sets)? {
        return Ok(false);
    }
    for set in sets {
        if !have_lists_in_form(alloc, set)? {
            return Ok(false);
        }
    }
    Ok(true)
}
