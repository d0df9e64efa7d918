//! Results of ranges that aren't in form.
ghost use Rattle.std.specs.Prelude.{◌≡◌, map, IfOk};
ghost use Rattle.std.specs.Ordering.{is_lt};
ghost use Rattle.values.specs.Order.{bytes_cmp};
ghost use Rattle.reasons.specs.Form.{first_fallen, first_outside, range_in, result_in, range_fault, ranges_fault};

use reasons::{FormFault, QueriedRange, RangeResult};
use rules::is_within;
use std::alloc::{AllocError, Global};
use transaction::{KeyVersion, Range};
use values::{Bytes, KeyRef, NameRef};

/// The range of a namespace, copied. Linear in its bounds, and memory for them.
pub fn queried_range(
    alloc: Global,
    namespace: &NameRef<'_>,
    range: &Range<'_>,
) -> Result<QueriedRange, AllocError>
    ensures { IfOk result (λ r. r ≡ range_in namespace.now range.now) }
{
    Ok(QueriedRange {
        namespace: namespace.copy(alloc)?,
        start: Bytes::from_slice(alloc, range.start.as_slice())?,
        end: Bytes::from_slice(alloc, range.end.as_slice())?,
    })
}

fn is_less(key: &KeyRef<'_>, other: &KeyRef<'_>) -> bool
    ensures { result ≡ is_lt (bytes_cmp key.now other.now) }
{
    key.as_slice().cmp(&other.as_slice()).is_lt()
}

/// The first result that isn't above the one before it: its place and its key.
fn first_fallen<'a>(results: &[KeyVersion<'a>]) -> Option<(usize, KeyRef<'a>)>
    ensures { result ≡ first_fallen 0 (map (λ x. x.key) results.now) }
{
    for i in 1..results.len() {
        if !is_less(&results[i - 1].key, &results[i].key) {
            return Some((i, results[i].key.reborrow()));
        }
    }
    None
}

/// The first result outside the range: its place and its key.
fn first_outside<'a>(range: &Range<'a>) -> Option<(usize, KeyRef<'a>)>
    ensures { result ≡ first_outside range.now.start range.now.end 0 (map (λ x. x.key) range.now.results) }
{
    for (place, found) in range.results.as_slice().iter().enumerate() {
        if !is_within(&range.start, &range.end, &found.key) {
            return Some((place, found.key.reborrow()));
        }
    }
    None
}

/// The result found in the range at this place of a namespace, copied: its place and its key.
fn range_result(
    alloc: Global,
    namespace: &NameRef<'_>,
    range_place: usize,
    range: &Range<'_>,
    found: &(usize, KeyRef<'_>),
) -> Result<RangeResult, AllocError>
    ensures { IfOk result (λ x. x ≡ result_in namespace.now range_place range.now found.now) }
{
    let (place, key) = found;
    Ok(RangeResult {
        range: queried_range(alloc, namespace, range)?,
        range_place,
        place: *place,
        key: key.copy(alloc)?,
    })
}

/// The first result that falls, else the first one outside the range.
fn range_fault(
    alloc: Global,
    namespace: &NameRef<'_>,
    range_place: usize,
    range: &Range<'_>,
) -> Result<Option<FormFault>, AllocError>
    ensures { IfOk result (λ fault. fault ≡ range_fault namespace.now range_place range.now) }
{
    if let Some(found) = first_fallen(range.results.as_slice()) {
        let fallen = range_result(alloc, namespace, range_place, range, &found)?;
        return Ok(Some(FormFault::ResultFalls(fallen)));
    }
    if let Some(found) = first_outside(range) {
        let outside = range_result(alloc, namespace, range_place, range, &found)?;
        return Ok(Some(FormFault::ResultLeaves(outside)));
    }
    Ok(None)
}

/// The first fault of the ranges of a namespace.
pub(crate) fn ranges_fault(
    alloc: Global,
    namespace: &NameRef<'_>,
    ranges: &[Range<'_>],
) -> Result<Option<FormFault>, AllocError>
    ensures { IfOk result (λ fault. fault ≡ ranges_fault namespace.now 0 ranges.now) }
{
    for (range_place, range) in ranges.iter().enumerate() {
        if let Some(fault) = range_fault(alloc, namespace, range_place, range)? {
            return Ok(Some(fault));
        }
    }
    Ok(None)
}
