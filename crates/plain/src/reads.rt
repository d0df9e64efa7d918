//! The read rule.
ghost use Rattle.std.specs.Prelude.{◌≡◌, IsTrue};
ghost use Rattle.std.specs.List.{list_all};
ghost use Rattle.rules.specs.Ranges.{range_holds};
ghost use Rattle.rules.specs.ReadWriteSets.{has_results_in_form, is_set_in_form, is_in_form};
ghost use Rattle.rules.specs.Reads.{read_holds, set_verdict, read_verdict};
ghost use Rattle.plain.specs.StateNow.{state_now};

use crate::ranges::range_holds;
use crate::state::StateNow;
use crate::state_key::StateKey;
use rules::ReadVerdict;
use transaction::{NsSet, Range, Read, Tx};
use values::NameRef;

fn read_holds(state: StateNow<'_>, namespace: &NameRef<'_>, read: &Read<'_>) -> bool
    ensures { result ≡ read_holds (state_now state.entry) namespace.now read.now }
{
    let key = StateKey::new(namespace, &read.key);
    state.version(&key) == read.version
}

fn reads_hold(state: StateNow<'_>, namespace: &NameRef<'_>, reads: &[Read<'_>]) -> bool
    ensures { result ≡ list_all (read_holds (state_now state.entry) namespace.now) reads.now }
{
    for read in reads {
        if !read_holds(state, namespace, read) {
            return false;
        }
    }
    true
}

fn ranges_hold(state: StateNow<'_>, namespace: &NameRef<'_>, ranges: &[Range<'_>]) -> bool
    requires { IsTrue (list_all has_results_in_form ranges.now) }
    ensures { result ≡ list_all (range_holds (state_now state.entry) namespace.now) ranges.now }
{
    for range in ranges {
        if !range_holds(state, namespace, range) {
            return false;
        }
    }
    true
}

fn set_verdict(state: StateNow<'_>, set: &NsSet<'_>) -> ReadVerdict
    requires { IsTrue (is_set_in_form set.now) }
    ensures { result ≡ set_verdict (state_now state.entry) set.now }
{
    if !reads_hold(state, &set.name, set.reads.as_slice()) {
        ReadVerdict::Stale
    } else if !ranges_hold(state, &set.name, set.ranges.as_slice()) {
        ReadVerdict::Phantom
    } else {
        ReadVerdict::Good
    }
}

/// The first fault of the reads and ranges, namespaces in order.
pub(crate) fn read_verdict(state: StateNow<'_>, tx: &Tx<'_>) -> ReadVerdict
    requires { IsTrue (is_in_form tx.now) }
    ensures { result ≡ read_verdict (state_now state.entry) tx.now }
{
    for set in tx.namespaces.as_slice() {
        match set_verdict(state, set) {
            ReadVerdict::Good => {}
            fault => return fault,
        }
    }
    ReadVerdict::Good
}
