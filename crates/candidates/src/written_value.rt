ghost use Rattle.std.specs.Prelude.{◌≡◌};

use std::marker::Model;
use values::Slice;

/// Where a namespace, a key in it and the key's value may be in other bytes. No contract mentions these places: the
/// code that uses one compares the bytes that it finds there.
#[derive(Clone, Copy)]
pub struct Spots {
    pub namespace: usize,
    pub key: usize,
    pub value: usize,
}

/// A borrowed value that is written, and where it may be in its transaction's bytes. A contract sees the value's bytes.
#[derive(Drop)]
pub struct WrittenValue<'a> {
    bytes: Slice<'a>,
    spots: Spots,
}

impl<'a> Model for WrittenValue<'a> {
    ghost use Rattle.std.specs.Prelude.{ℕ, List};

    ghost Value = { List ℕ };

    ghost view = { λ v. v.bytes };
}

impl<'a> WrittenValue<'a> {
    pub(crate) fn new(bytes: &Slice<'a>, spots: Spots) -> WrittenValue<'a>
        ensures { result ≡ bytes.now }
    {
        WrittenValue {
            bytes: bytes.reborrow(),
            spots,
        }
    }

    /// The value's bytes.
    pub fn as_slice(&self) -> &'a [u8]
        ensures { result.now ≡ self.now }
    {
        self.bytes.as_slice()
    }

    /// Where it may be in the bytes of a block in which its transaction begins at this place.
    pub fn spots_in_block(&self, tx: usize) -> Spots {
        Spots {
            namespace: tx.wrapping_add(self.spots.namespace),
            key: tx.wrapping_add(self.spots.key),
            value: tx.wrapping_add(self.spots.value),
        }
    }
}
