//! Whether the items of a list differ by their labels.
ghost use Rattle.std.specs.Prelude.{◌≡◌, map, IfOk};
ghost use Rattle.std.specs.List.{list_any};
ghost use Rattle.std.specs.List.Sorted.{IsPermutation};
ghost use Rattle.std.specs.Ordering.{is_lt};
ghost use Rattle.std.specs.Str.{bytes_eq};
ghost use Rattle.values.specs.Order.{bytes_cmp};
ghost use Rattle.rules.specs.ReadWriteSets.{are_distinct};
ghost use Rattle.candidates.specs.Rising.{are_rising};

use std::alloc::{AllocError, Global};
use transaction::Labelled;

/// The most items that are compared pair by pair.
const FEW: usize = 16;

fn is_before(bytes: &[u8], others: &[u8]) -> bool
    ensures { result ≡ is_lt (bytes_cmp bytes.now others.now) }
{
    bytes < others
}

/// Whether each label is less than the next. Linear, and no memory.
pub(crate) fn are_rising<T: Labelled>(items: &[T]) -> bool
    ensures { result ≡ are_rising (map T.label items.now) }
{
    let mut last: Option<&[u8]> = None;
    for item in items {
        let label = item.label();
        if let Some(last) = last {
            if !is_before(last, label) {
                return false;
            }
        }
        last = Some(label);
    }
    true
}

/// Whether one of the items has the label. Linear in their number.
pub fn is_among<T: Labelled>(label: &[u8], items: &[T]) -> bool
    ensures { result ≡ list_any (bytes_eq label.now) (map T.label items.now) }
{
    for item in items {
        if label == item.label() {
            return true;
        }
    }
    false
}

/// Compares each label with all after it.
fn are_distinct_in_pairs<T: Labelled>(items: &[T]) -> bool
    ensures { result ≡ are_distinct (map T.label items.now) }
{
    for (i, item) in items.iter().enumerate() {
        if is_among(item.label(), &items[i + 1..]) {
            return false;
        }
    }
    true
}

fn labels_of<T: Labelled>(alloc: Global, items: &[T]) -> Result<Vec<&[u8]>, AllocError>
    ensures { IfOk result (λ labels. map (λ label. label.now) labels.items ≡ map T.label items.now) }
{
    let mut labels = Vec::with_capacity(alloc, items.len())?;
    for item in items {
        labels.push(item.label())?;
    }
    Ok(labels)
}

/// By their order: those that are the same are neighbours in it.
fn are_distinct_in_order(mut labels: Vec<&[u8]>) -> bool
    ensures { result ≡ are_distinct (map (λ label. label.now) labels.entry.items) }
{
    labels.sort_unstable();
    are_rising(labels.as_slice())
}

/// Whether no two labels are the same. If they rise, one pass shows it; if they are few, each is compared with the
/// others; otherwise n log n comparisons, and memory for a reference to each.
pub(crate) fn are_distinct<T: Labelled>(alloc: Global, items: &[T]) -> Result<bool, AllocError>
    ensures { IfOk result (λ distinct. distinct ≡ are_distinct (map T.label items.now)) }
{
    if are_rising(items) {
        return Ok(true);
    }
    if items.len() <= FEW {
        return Ok(are_distinct_in_pairs(items));
    }
    Ok(are_distinct_in_order(labels_of(alloc, items)?))
}
