use values::{Bytes, Name};

/// A range query of a transaction: from the start to before the end, which is unbounded where it is empty.
#[derive(Debug, Drop)]
pub struct QueriedRange {
    pub namespace: Name,
    pub start: Bytes,
    pub end: Bytes,
}
