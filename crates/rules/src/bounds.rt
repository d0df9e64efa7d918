ghost use Rattle.std.specs.Prelude.{◌≡◌};
ghost use Rattle.std.specs.Ordering.{is_le};
ghost use Rattle.values.specs.Order.{bytes_cmp};
ghost use Rattle.rules.specs.Ranges.{is_below, is_within};

use values::{BoundRef, KeyRef};

fn is_from(start: &BoundRef<'_>, key: &KeyRef<'_>) -> bool
    ensures { result ≡ is_le (bytes_cmp start.now key.now) }
{
    start.as_slice().cmp(&key.as_slice()).is_le()
}

/// Whether the key is before the end, which is no bound where it is empty.
fn is_below(key: &KeyRef<'_>, end: &BoundRef<'_>) -> bool
    ensures { result ≡ is_below key.now end.now }
{
    let end = end.as_slice();
    end.is_empty() || key.as_slice().cmp(&end).is_lt()
}

/// Whether the key is at or behind the start, and before the end, which is no bound where it is empty.
pub fn is_within(start: &BoundRef<'_>, end: &BoundRef<'_>, key: &KeyRef<'_>) -> bool
    ensures { result ≡ is_within start.now end.now key.now }
{
    is_from(start, key) && is_below(key, end)
}
