//! The order of keys, by their heads and beyond.

use crate::fixture::{key, name};
use state_keys::StateKey;
use std::cmp::Ordering;
use test_support::Failed;

// Namespaces with keys in them, in order: a head has 23 bytes of both and of the zero between them.
static IN_ORDER: [(&[u8], &[u8]); 14] = [
    (b"a", b"z"),
    (b"a-", b"a"),
    (b"a-namespace-of-23-bytes", b"1"),
    (b"a-namespace-of-23-bytes", b"2"),
    (b"a-namespace-of-23-bytes1", b"1"),
    (b"a1", b"\0"),
    (b"a1", b"\0\0"),
    (b"cc", b"a-key-of-20-bytes-20"),
    (b"cc", b"a-key-of-20-bytes-20\0"),
    (b"cc", b"a-key-of-20-bytes-200"),
    (b"cc", b"a-key-of-20-bytes-2000"),
    (b"cc", b"a-key-of-20-bytes-2001"),
    (b"cc", b"a-key-of-20-bytes-21"),
    (b"cc1", b"a"),
];

fn in_order() -> &'static [(&'static [u8], &'static [u8])] {
    &IN_ORDER
}

fn state_key<'a>(namespace: &'a [u8], at: &'a [u8]) -> Result<StateKey<'a>, Failed> {
    Ok(StateKey::new(&name(namespace)?, &key(at)?))
}

fn is_order(a: &StateKey<'_>, b: &StateKey<'_>, order: Ordering) -> bool {
    a.order(b) == order && a.is_same(b) == order.is_eq() && b.reborrow().order(a) == order.reverse()
}

// Whether the key of a number stands so with all keys, and all with it.
fn is_in_order(number: usize, one: &StateKey<'_>) -> Result<bool, Failed> {
    for (i, &(namespace, at)) in in_order().iter().enumerate() {
        if !is_order(one, &state_key(namespace, at)?, number.cmp(&i)) {
            return Ok(false);
        }
    }
    Ok(true)
}

#[test]
fn keys_stand_in_their_order(rt: HostRuntime) -> Result<(), Failed> {
    for (number, &(namespace, at)) in in_order().iter().enumerate() {
        assert!(rt;
            is_in_order(number, &state_key(namespace, at)?)?,
            "key {number}"
        );
    }
    Ok(())
}
