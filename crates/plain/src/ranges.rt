//! The range rule.
ghost use Rattle.std.specs.Prelude.{◌≡◌, None, IsTrue};
ghost use Rattle.std.specs.List.{last_or, list_all, list_any};
ghost use Rattle.std.specs.Str.{bytes_eq};
ghost use Rattle.rules.specs.Ranges.{is_up_to, is_compared, range_holds};
ghost use Rattle.rules.specs.ReadWriteSets.{has_results_in_form};
ghost use Rattle.plain.specs.RangeChecks.{is_found, is_listed};
ghost use Rattle.plain.specs.StateNow.{state_now};

use crate::sets::is_at_most;
use crate::state::StateNow;
use crate::state_key::StateKey;
use rules::{Change, is_within};
use transaction::{KeyVersion, Range};
use values::{KeyRef, NameRef};

fn is_up_to_last(range: &Range<'_>, key: &KeyRef<'_>) -> bool
    ensures { result ≡ is_up_to key.now (last_or None range.now.results) }
{
    match range.results.last() {
        None => false,
        Some(last) => is_at_most(key.as_slice(), last.key.as_slice()),
    }
}

/// Whether the key lies in the part that is compared.
fn is_compared(range: &Range<'_>, key: &KeyRef<'_>) -> bool
    ensures { result ≡ is_compared range.now key.now }
{
    is_within(&range.start, &range.end, key) && (range.exhausted || is_up_to_last(range, key))
}

fn is_result(range: &Range<'_>, key: &KeyRef<'_>) -> bool
    ensures { result ≡ list_any (λ x. bytes_eq key.now x.key) range.now.results }
{
    range
        .results
        .as_slice()
        .iter()
        .any(|found| key.is_same(&found.key))
}

/// Whether a result is a row of the compared part, with its version.
fn is_found(
    state: StateNow<'_>,
    namespace: &NameRef<'_>,
    range: &Range<'_>,
    found: &KeyVersion<'_>,
) -> bool
    ensures { result ≡ is_found (state_now state.entry) namespace.now range.now found.now }
{
    let key = StateKey::new(namespace, &found.key);
    is_compared(range, &found.key) && state.version(&key) == Some(found.version)
}

/// Whether the row of a changed key is a result, where the key has one in the compared part.
fn is_listed(
    state: StateNow<'_>,
    namespace: &NameRef<'_>,
    range: &Range<'_>,
    change: &Change,
) -> bool
    ensures { result ≡ is_listed (state_now state.entry) namespace.now range.now change.now }
{
    let changed = change.key();
    let key = StateKey::new(namespace, &changed);
    !change.namespace().is_same(namespace)
        || !is_compared(range, &changed)
        || state.row(&key).is_none()
        || is_result(range, &changed)
}

fn are_listed(
    state: StateNow<'_>,
    namespace: &NameRef<'_>,
    range: &Range<'_>,
    changes: &[Change],
) -> bool
    ensures { result ≡ list_all (is_listed (state_now state.entry) namespace.now range.now) changes.now }
{
    for change in changes {
        if !is_listed(state, namespace, range, change) {
            return false;
        }
    }
    true
}

fn are_found(state: StateNow<'_>, namespace: &NameRef<'_>, range: &Range<'_>) -> bool
    ensures { result ≡ list_all (is_found (state_now state.entry) namespace.now range.now) range.now.results }
{
    for found in range.results.as_slice() {
        if !is_found(state, namespace, range, found) {
            return false;
        }
    }
    true
}

/// Whether the range query, executed again over the state, gives the same keys and versions: each result is a
/// row of the compared part, and each such row is a result.
pub(crate) fn range_holds(state: StateNow<'_>, namespace: &NameRef<'_>, range: &Range<'_>) -> bool
    requires { IsTrue (has_results_in_form range.now) }
    ensures { result ≡ range_holds (state_now state.entry) namespace.now range.now }
{
    let before = state.world.changes();
    are_found(state, namespace, range)
        && are_listed(state, namespace, range, before)
        && are_listed(state, namespace, range, state.changes)
}
