use crate::queried_range::QueriedRange;
use values::Key;

/// A result of a range query of a transaction.
#[derive(Debug, Drop)]
pub struct RangeResult {
    pub range: QueriedRange,
    /// The place of the range among those of its namespace, from 0.
    pub range_place: usize,
    /// The place of the result among those of the range, from 0.
    pub place: usize,
    pub key: Key,
}
