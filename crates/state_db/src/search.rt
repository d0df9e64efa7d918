ghost use Rattle.std.specs.Prelude.{◌≡◌, ◌≤◌, Bool, length};
ghost use Rattle.rules.specs.State.{StateKey};
ghost use Rattle.state_db.specs.Search.{leading, Falls};

use state_keys::Wanted;

/// What is in an order by keys.
pub(crate) trait Ordered {
    ghost is_below: { StateKey → Self → Bool };

    /// Whether it is before the key.
    fn is_below(&self, wanted: &Wanted<'_>) -> bool
        ensures { result ≡ is_below wanted.now self.now };
}

/// How many items in order are before the key, if that is in this range. Logarithmic in the range's length.
fn count_between<T: Ordered>(items: &[T], wanted: &Wanted<'_>, least: usize, most: usize) -> usize
    requires falls { Falls (T.is_below wanted.now) items.now }
    requires least { least ≤ leading (T.is_below wanted.now) items.now }
    requires most { leading (T.is_below wanted.now) items.now ≤ most }
    requires bound { most ≤ length items.now }
    ensures { result ≡ leading (T.is_below wanted.now) items.now }
{
    let mut low = least;
    let mut high = most;
    while low < high {
        let middle = low + (high - low) / 2;
        if items[middle].is_below(wanted) {
            low = middle + 1;
        } else {
            high = middle;
        }
    }
    low
}

/// How many items in order are before the key. Logarithmic.
pub(crate) fn count_below<T: Ordered>(items: &[T], wanted: &Wanted<'_>) -> usize
    requires { Falls (T.is_below wanted.now) items.now }
    ensures place { result ≡ leading (T.is_below wanted.now) items.now }
    ensures bound { result ≤ length items.now }
{
    count_between(items, wanted, 0, items.len())
}

/// How many items are below what is wanted, as by `count_below`. Logarithmic in the result, so fast if few are.
pub(crate) fn count_few_below<T: Ordered>(items: &[T], wanted: &Wanted<'_>) -> usize
    requires { Falls (T.is_below wanted.now) items.now }
    ensures place { result ≡ leading (T.is_below wanted.now) items.now }
    ensures bound { result ≤ length items.now }
{
    let mut passed = 0;
    let mut next = 0;
    while next < items.len() {
        if !items[next].is_below(wanted) {
            return count_between(items, wanted, passed, next);
        }
        passed = next + 1;
        next = passed.saturating_add(next);
    }
    count_between(items, wanted, passed, items.len())
}
