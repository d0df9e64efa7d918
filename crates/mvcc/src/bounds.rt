//! Which keys of a range are compared, and which are results.
ghost use Rattle.std.specs.Prelude.{◌≡◌, None, IsTrue};
ghost use Rattle.std.specs.List.{last_or};
ghost use Rattle.std.specs.FinMap.{find};
ghost use Rattle.values.specs.Order.{bytes_cmp};
ghost use Rattle.rules.specs.Ranges.{is_up_to, is_compared, results_of};
ghost use Rattle.rules.specs.ReadWriteSets.{has_results_in_form};
ghost use Rattle.mvcc.specs.RangeChecks.{is_result};

use rules::is_within;
use std::cmp::Ordering;
use transaction::{Range, Version};
use values::KeyRef;

fn order(key: &KeyRef<'_>, other: &KeyRef<'_>) -> Ordering
    ensures { result ≡ bytes_cmp key.now other.now }
{
    key.as_slice().cmp(&other.as_slice())
}

fn is_up_to_last(range: &Range<'_>, key: &KeyRef<'_>) -> bool
    ensures { result ≡ is_up_to key.now (last_or None range.now.results) }
{
    match range.results.last() {
        None => false,
        Some(last) => order(key, &last.key).is_le(),
    }
}

/// Whether the key lies in the part that is compared.
pub fn is_compared(range: &Range<'_>, key: &KeyRef<'_>) -> bool
    ensures { result ≡ is_compared range.now key.now }
{
    is_within(&range.start, &range.end, key) && (range.exhausted || is_up_to_last(range, key))
}

/// The version that the query found at a key: none where it isn't among the results, whose keys rise. Logarithmic in
/// their number.
pub fn version_found(range: &Range<'_>, key: &KeyRef<'_>) -> Option<Version>
    requires { IsTrue (has_results_in_form range.now) }
    ensures { result ≡ find bytes_cmp key.now (results_of range.now) }
{
    let results = range.results.as_slice();
    match results.binary_search_by(|found| order(&found.key, key)) {
        Ok(place) => Some(results[place].version),
        Err(_) => None,
    }
}

/// Whether the key is one of the results.
pub(crate) fn is_result(range: &Range<'_>, key: &KeyRef<'_>) -> bool
    requires { IsTrue (has_results_in_form range.now) }
    ensures { result ≡ is_result range.now key.now }
{
    version_found(range, key).is_some()
}
