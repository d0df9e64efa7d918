//! An example that is cut, and one with other fields, which are good or encode nothing.

use crate::fields::{Field, with_field};
use std::alloc::{AllocError, Global};
use transaction::{BlockVersion, TxFault, decode_item, decode_tx};

/// What bytes are read as.
#[derive(Clone, Copy)]
pub enum Kind {
    Tx,
    /// In a block of version 2.
    Update,
}

/// A field that replaces the bytes from one place to before another, and whether they are good with it.
pub type Change = (usize, usize, Field, bool);

fn fault_of(alloc: Global, kind: Kind, bytes: &[u8]) -> Option<TxFault> {
    match kind {
        Kind::Tx => decode_tx(alloc, bytes).err(),
        Kind::Update => decode_item(alloc, BlockVersion::V2, bytes).err(),
    }
}

/// The first length to which the example is cut that has another fault than its form.
pub fn first_unlike_cut(alloc: Global, kind: Kind, example: &[u8]) -> Option<usize> {
    for len in 0..example.len() {
        let bytes = example.get(..len).unwrap_or_default();
        if fault_of(alloc, kind, bytes) != Some(TxFault::Form) {
            return Some(len);
        }
    }
    None
}

/// Whether the example with the change's field is good or not, as the change states.
pub fn is_as_said(
    alloc: Global,
    kind: Kind,
    example: &[u8],
    change: &Change,
) -> Result<bool, AllocError> {
    let &(from, to, field, is_good) = change;
    let field = field.bytes(alloc)?;
    let bytes = with_field(alloc, example, from, to, &field)?;
    let wanted = if is_good { None } else { Some(TxFault::Form) };
    Ok(fault_of(alloc, kind, &bytes) == wanted)
}
