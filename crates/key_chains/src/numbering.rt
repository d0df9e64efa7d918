//! The keys that a block writes, numbered.
ghost use Rattle.std.specs.Prelude.{◌≡◌, ◌<◌, ◌≤◌, ◌^◌, true, false, Some, length, IfOk, IfSome};
ghost use Rattle.std.specs.List.Sorted.{IsStrictlySortedBy, IsPartitionPoint};
ghost use Rattle.rules.specs.State.{key_cmp};
ghost use Rattle.std.specs.Ordering.{is_lt, is_le};
ghost use Rattle.values.specs.Order.{bytes_cmp};
ghost use Rattle.rules.specs.Ranges.{is_within};
ghost use Rattle.candidates.specs.Written.{keys_in_order};
ghost use Rattle.key_chains.specs.Job.{keys_where};
ghost use Rattle.key_chains.specs.Building.{stands_below};
ghost use Rattle.key_chains.specs.Numbers.{number_in};

use candidates::{StateKey, keys_in_order};
use std::alloc::AllocError;
use std::cmp::Ordering;
use std::marker::Model;
use values::{BoundRef, NameRef};

/// Keys in their order, each once. A key's number is its place. A contract sees the list.
#[derive(Drop)]
pub(crate) struct Numbering<'a> {
    keys: Vec<StateKey<'a>>,
}

impl<'a> Model for Numbering<'a> {
    ghost use Rattle.std.specs.Prelude.{List};
    ghost use Rattle.rules.specs.State as state;

    ghost Value = { List state.StateKey };

    ghost use Rattle.std.specs.Prelude.{◌<◌, ◌^◌, length};
    ghost use Rattle.std.specs.List.Sorted.{IsStrictlySortedBy};
    ghost use Rattle.rules.specs.State.{key_cmp};

    ghost view = { λ n. n.keys.items };

    ghost invariant = { λ n. IsStrictlySortedBy key_cmp n.keys.items × (length n.keys.items < 2 ^ 32) };
}

/// The place of a key among keys in their order.
fn place_of<'k>(keys: &[StateKey<'k>], key: &StateKey<'k>) -> Option<usize>
    requires { IsStrictlySortedBy key_cmp keys.now }
    ensures value { result ≡ number_in keys.now key.now }
    ensures bound { IfSome result (λ n. n < length keys.now) }
{
    keys.binary_search(key).ok()
}

/// Whether the key at a place is this one: then the place is its number.
fn is_at(keys: &[StateKey<'_>], place: usize, key: &StateKey<'_>) -> bool
    requires { IsStrictlySortedBy key_cmp keys.now }
    ensures value { result ≡ true → number_in keys.now key.now ≡ Some place }
    ensures bound { result ≡ true → place < length keys.now }
{
    if place >= keys.len() {
        return false;
    }
    keys[place].is_same(key)
}

/// Whether a key stands before a bound in a namespace.
fn is_before(key: &StateKey<'_>, namespace: &NameRef<'_>, bound: &[u8]) -> bool
    ensures { result ≡ is_lt (key_cmp key.now (namespace.now, bound.now)) }
{
    match key.namespace().as_slice().cmp(&namespace.as_slice()) {
        Ordering::Equal => key.key().as_slice().cmp(&bound).is_lt(),
        other => other.is_lt(),
    }
}

/// Whether a key stands in the namespaces up to this one.
fn is_through(key: &StateKey<'_>, namespace: &NameRef<'_>) -> bool
    ensures { result ≡ is_le (bytes_cmp key.now.0 namespace.now) }
{
    key.namespace()
        .as_slice()
        .cmp(&namespace.as_slice())
        .is_le()
}

/// How many keys stand before a bound in a namespace. Logarithmic.
fn count_before(keys: &[StateKey<'_>], namespace: &NameRef<'_>, bound: &[u8]) -> usize
    requires { IsStrictlySortedBy key_cmp keys.now }
    ensures bound { result ≤ length keys.now }
    ensures point { IsPartitionPoint (λ k. is_lt (key_cmp k (namespace.now, bound.now)) ≡ true) (λ k. is_lt (key_cmp k (namespace.now, bound.now)) ≡ false) keys.now result }
{
    keys.partition_point(
        |key: &StateKey<'_>| -> bool
            ensures { result ≡ is_lt (key_cmp key.now (namespace.entry.now, bound.entry.now)) }
        { is_before(key, namespace, bound) },
    )
}

/// How many keys stand in the namespaces up to this one. Logarithmic.
fn count_through(keys: &[StateKey<'_>], namespace: &NameRef<'_>) -> usize
    requires { IsStrictlySortedBy key_cmp keys.now }
    ensures bound { result ≤ length keys.now }
    ensures point { IsPartitionPoint (λ k. is_le (bytes_cmp k.0 namespace.now) ≡ true) (λ k. is_le (bytes_cmp k.0 namespace.now) ≡ false) keys.now result }
{
    keys.partition_point(
        |key: &StateKey<'_>| -> bool
            ensures { result ≡ is_le (bytes_cmp key.now.0 namespace.entry.now) }
        { is_through(key, namespace) },
    )
}

/// How many keys stand before an end in a namespace, an empty end being no bound.
fn count_below(keys: &[StateKey<'_>], namespace: &NameRef<'_>, end: &[u8]) -> usize
    requires { IsStrictlySortedBy key_cmp keys.now }
    ensures bound { result ≤ length keys.now }
    ensures point { IsPartitionPoint (λ k. stands_below namespace.now end.now k ≡ true) (λ k. stands_below namespace.now end.now k ≡ false) keys.now result }
{
    if end.is_empty() {
        count_through(keys, namespace)
    } else {
        count_before(keys, namespace, end)
    }
}

impl<'a> Numbering<'a> {
    /// Numbers these keys, in n log n comparisons. Takes no memory; `Err` where their count has more than 32 bits.
    pub fn new(keys: Vec<StateKey<'a>>) -> Result<Numbering<'a>, AllocError>
        ensures { IfOk result (λ n. n ≡ keys_in_order keys.entry.items) }
    {
        let keys = keys_in_order(keys);
        if u32::try_from(keys.len()).is_err() {
            return Err(AllocError);
        }
        Ok(Numbering { keys })
    }

    /// The keys in their order.
    pub fn as_slice(&self) -> &[StateKey<'a>]
        ensures { result.now ≡ self.now }
    {
        self.keys.as_slice()
    }

    /// A key's number. Logarithmic.
    pub fn number(&self, key: &StateKey<'_>) -> Option<u32>
        ensures value { result ≡ number_in self.now key.now }
        ensures bound { IfSome result (λ n. n < length self.now) }
    {
        match place_of(self.keys.as_slice(), key) {
            None => None,
            Some(place) => Some(place as u32),
        }
    }

    /// A key's number, as `number`. One comparison if a guess is right.
    pub fn number_by(&self, guess: Option<u32>, key: &StateKey<'_>) -> Option<u32>
        ensures value { result ≡ number_in self.now key.now }
        ensures bound { IfSome result (λ n. n < length self.now) }
    {
        match guess {
            Some(number) if is_at(self.keys.as_slice(), number as usize, key) => Some(number),
            _ => self.number(key),
        }
    }

    /// The keys of a namespace from a start to before an end, an empty end being no bound. Logarithmic.
    pub fn between(
        &self,
        namespace: &NameRef<'_>,
        start: &BoundRef<'_>,
        end: &BoundRef<'_>,
    ) -> &[StateKey<'a>]
        ensures { result.now ≡ keys_where self.now namespace.now (is_within start.now end.now) }
    {
        let keys = self.keys.as_slice();
        let high = count_below(keys, namespace, end.as_slice());
        let low = count_before(keys, namespace, start.as_slice());
        &keys[low.min(high)..high]
    }
}
