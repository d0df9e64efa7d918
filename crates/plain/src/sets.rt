//! Whether read and write sets are in form.
ghost use Rattle.std.specs.Prelude.{◌≡◌, map, IfOk};
ghost use Rattle.std.specs.List.{list_all, list_any};
ghost use Rattle.std.specs.Ordering.{is_lt, is_le};
ghost use Rattle.std.specs.Str.{bytes_eq};
ghost use Rattle.values.specs.Order.{bytes_cmp};
ghost use Rattle.rules.specs.Ranges.{is_within};
ghost use Rattle.rules.specs.ReadWriteSets.{are_distinct, has_results_in_form, has_policy_in_form, is_set_in_form, is_in_form};
ghost use Rattle.plain.specs.Rising.{are_rising};

use policy::{Policy, PolicyFault};
use rules::is_within;
use std::alloc::{AllocError, Global};
use transaction::{KeyVersion, Labelled, NsSet, PolicyWrite, Range, Tx};
use values::KeyRef;

fn is_before(bytes: &[u8], others: &[u8]) -> bool
    ensures { result ≡ is_lt (bytes_cmp bytes.now others.now) }
{
    bytes < others
}

pub(crate) fn is_at_most(bytes: &[u8], others: &[u8]) -> bool
    ensures { result ≡ is_le (bytes_cmp bytes.now others.now) }
{
    bytes <= others
}

fn is_among(text: &[u8], others: &[&[u8]]) -> bool
    ensures { result ≡ list_any (bytes_eq text.now) (map (λ other. other.now) others.now) }
{
    for other in others {
        if text == *other {
            return true;
        }
    }
    false
}

/// Whether no two are the same.
fn are_distinct(texts: &[&[u8]]) -> bool
    ensures { result ≡ are_distinct (map (λ text. text.now) texts.now) }
{
    for (i, text) in texts.iter().enumerate() {
        if is_among(text, &texts[i + 1..]) {
            return false;
        }
    }
    true
}

fn have_distinct_labels<T: Labelled>(alloc: Global, items: &[T]) -> Result<bool, AllocError>
    ensures { IfOk result (λ distinct. distinct ≡ are_distinct (map T.label items.now)) }
{
    let mut labels = Vec::new(alloc);
    for item in items {
        labels.push(item.label())?;
    }
    Ok(are_distinct(labels.as_slice()))
}

fn are_rising(results: &[KeyVersion<'_>]) -> bool
    ensures { result ≡ are_rising results.now }
{
    let mut last: Option<&KeyRef<'_>> = None;
    for found in results {
        if let Some(last) = last {
            if !is_before(last.as_slice(), found.key.as_slice()) {
                return false;
            }
        }
        last = Some(&found.key);
    }
    true
}

/// Whether the keys strictly rise, and none leaves the range.
fn has_results_in_form(range: &Range<'_>) -> bool
    ensures { result ≡ has_results_in_form range.now }
{
    let results = range.results.as_slice();
    if !are_rising(results) {
        return false;
    }
    for found in results {
        if !is_within(&range.start, &range.end, &found.key) {
            return false;
        }
    }
    true
}

/// Whether a policy that is written can be read.
fn has_policy_in_form(alloc: Global, write: &PolicyWrite<'_>) -> Result<bool, AllocError>
    ensures { IfOk result (λ fine. fine ≡ has_policy_in_form write.now) }
{
    match &write.policy {
        None => Ok(true),
        Some(text) => match Policy::parse_bytes(alloc, text.as_slice()) {
            Ok(_) => Ok(true),
            Err(PolicyFault::Memory) => Err(AllocError),
            Err(_) => Ok(false),
        },
    }
}

fn have_policies_in_form(alloc: Global, writes: &[PolicyWrite<'_>]) -> Result<bool, AllocError>
    ensures { IfOk result (λ fine. fine ≡ list_all has_policy_in_form writes.now) }
{
    for write in writes {
        if !has_policy_in_form(alloc, write)? {
            return Ok(false);
        }
    }
    Ok(true)
}

fn have_results_in_form(ranges: &[Range<'_>]) -> bool
    ensures { result ≡ list_all has_results_in_form ranges.now }
{
    ranges.iter().all(has_results_in_form)
}

fn is_set_in_form(alloc: Global, set: &NsSet<'_>) -> Result<bool, AllocError>
    ensures { IfOk result (λ fine. fine ≡ is_set_in_form set.now) }
{
    Ok(
        have_distinct_labels(alloc, set.reads.as_slice())?
            && have_distinct_labels(alloc, set.writes.as_slice())?
            && have_distinct_labels(alloc, set.policy_writes.as_slice())?
            && have_results_in_form(set.ranges.as_slice())
            && have_policies_in_form(alloc, set.policy_writes.as_slice())?,
    )
}

/// Whether the read and write sets are in form.
pub(crate) fn is_in_form(alloc: Global, tx: &Tx<'_>) -> Result<bool, AllocError>
    ensures { IfOk result (λ fine. fine ≡ is_in_form tx.now) }
{
    let sets = tx.namespaces.as_slice();
    if !have_distinct_labels(alloc, sets)? {
        return Ok(false);
    }
    for set in sets {
        if !is_set_in_form(alloc, set)? {
            return Ok(false);
        }
    }
    Ok(true)
}
