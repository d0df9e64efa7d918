//! The first bytes of a key, which mostly tell its order among others without a look at the key.
ghost use Rattle.std.specs.Prelude.{◌≡◌, ◌<◌, ◌≤◌, ◌+◌, ℕ, false, IsTrue, IfSome, IfNone, get_or, length, min};
ghost use Rattle.values.specs.Order.{bytes_cmp};
ghost use Rattle.values.specs.Name.{is_name};
ghost use Rattle.rules.specs.State.{StateKey, key_cmp};
ghost use Rattle.state_keys.specs.Head.{spelled, head_of, word_at, is_whole};

use std::cmp::Ordering;

/// How many bytes of a key stand in its head.
const KEY_BYTES: usize = 23;

/// The bytes of a head: the first 23 of a key, and one that tells how many the key has, 24 being that many or more.
pub const HEAD_BYTES: usize = KEY_BYTES + 1;

/// The first bytes of a key and how many it has, as [`head_of`] makes them.
pub type Head = [u8; HEAD_BYTES];

/// The head with these bytes from a place on, as far as they fit before the count.
fn with_bytes(mut head: Head, from: usize, bytes: &[u8]) -> Head
    requires { from ≤ 23 }
    ensures len { length result ≡ 24 }
    ensures before { (i : ℕ) → i < from → get_or result i 0 ≡ get_or head i 0 }
    ensures there { (i : ℕ) → i < length bytes.now → from + i < 23 → get_or result (from + i) 0 ≡ get_or bytes.now i 0 }
    ensures behind { (i : ℕ) → from + length bytes.now ≤ i → get_or result i 0 ≡ get_or head i 0 }
{
    let count = bytes.len().min(KEY_BYTES - from);
    for place in 0..count {
        head[from + place] = bytes[place];
    }
    head
}

/// How many bytes there are, up to one more than a head has.
fn count_of(namespace: &[u8], key: &[u8]) -> u8
    ensures { result ≡ min (length (spelled (namespace.now, key.now))) 24 }
{
    let most = namespace.len().min(HEAD_BYTES) + 1 + key.len().min(HEAD_BYTES);
    most.min(HEAD_BYTES) as u8
}

/// The head of a key: the first 23 bytes of its namespace, a zero and the key, and how many there are.
pub fn head_of(namespace: &[u8], key: &[u8]) -> Head
    ensures { result ≡ head_of (namespace.now, key.now) }
{
    // behind the namespace a zero
    let from = namespace.len().min(KEY_BYTES - 1) + 1;
    let mut head = with_bytes([0; HEAD_BYTES], 0, namespace);
    head = with_bytes(head, from, key);
    head[KEY_BYTES] = count_of(namespace, key);
    head
}

/// Whether the head has all bytes of its key, and so tells the key.
fn is_whole(head: &Head) -> bool
    ensures { result ≡ is_whole head.now }
{
    head[KEY_BYTES] as usize <= KEY_BYTES
}

/// Eight bytes as one number, in the order of which they stand.
fn word_at(head: &Head, place: usize) -> u64
    requires { place + 8 ≤ 24 }
    ensures { result ≡ word_at head.now place }
{
    u64::from_be_bytes([
        head[place],
        head[place + 1],
        head[place + 2],
        head[place + 3],
        head[place + 4],
        head[place + 5],
        head[place + 6],
        head[place + 7],
    ])
}

/// How a head stands to another, by words of them.
fn order_of(head: &Head, other: &Head) -> Ordering
    ensures { result ≡ bytes_cmp head.now other.now }
{
    let mut place = 0;
    while place < HEAD_BYTES {
        let order = word_at(head, place).cmp(&word_at(other, place));
        if order.is_ne() {
            return order;
        }
        place += 8;
    }
    Ordering::Equal
}

/// How keys with these heads stand to one another, or `None` where the heads don't tell.
pub(crate) fn order_by_heads(head: &Head, other: &Head) -> Option<Ordering>
    ensures told { (a b : StateKey) → IsTrue (is_name a.0) → IsTrue (is_name b.0) → head.now ≡ head_of a → other.now ≡ head_of b → IfSome result (λ order. order ≡ key_cmp a b) }
    ensures same { IfNone result ((head.now ≡ other.now) × (is_whole head.now ≡ false)) }
{
    let order = order_of(head, other);
    if order.is_eq() && !is_whole(head) {
        return None;
    }
    Some(order)
}
