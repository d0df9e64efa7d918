//! What a block writes is kept as slices of the block's own bytes, if it is found there.
ghost use Rattle.std.specs.Prelude.{◌≡◌, IfOk};

use candidates::{Spots, StateKey, WrittenKey, WrittenValue};
use rules::{KeptId, KeptKey};
use std::alloc::{AllocError, Global};
use transaction::Tx;
use values::{Bytes, Part, Shared};

// how many bytes the length of the channel's name takes; the id follows the name
const NAME_COUNT: usize = 1;

// of a key that was written nowhere yet
const NOWHERE: Spots = Spots {
    namespace: 0,
    key: 0,
    value: 0,
};

/// The bytes of a block, where its transactions may begin there, and where each of its keys may be, as it was written
/// last.
#[derive(Drop)]
pub(crate) struct Keeping<'k> {
    alloc: Global,
    bytes: &'k Shared<Bytes>,
    starts: &'k [usize],
    spots: Vec<Spots>,
}

impl<'k> Keeping<'k> {
    /// Of a block that writes this many keys.
    pub fn new(
        alloc: Global,
        bytes: &'k Shared<Bytes>,
        starts: &'k [usize],
        keys: usize,
    ) -> Result<Keeping<'k>, AllocError> {
        Ok(Keeping {
            alloc,
            bytes,
            starts,
            spots: vec![in alloc; NOWHERE; keys]?,
        })
    }

    /// The allocator of what is kept.
    pub fn alloc(&self) -> Global {
        self.alloc
    }

    /// Where candidate i may begin.
    fn start_of(&self, i: u32) -> usize {
        let place = i as usize;
        if place < self.starts.len() {
            self.starts[place]
        } else {
            0
        }
    }

    /// The id of candidate i, to be kept. Takes memory if it isn't found.
    pub fn id(&self, i: u32, tx: &Tx<'_>) -> Result<KeptId, AllocError>
        ensures { IfOk result (λ kept. kept ≡ tx.now.id) }
    {
        let place = NAME_COUNT.wrapping_add(tx.channel.len());
        KeptId::kept(
            self.alloc,
            self.bytes,
            self.start_of(i).wrapping_add(place),
            &tx.id,
        )
    }

    /// Notes where candidate i writes a key, which has this number: only if it writes a value, since otherwise there is
    /// no row, or one with the value that it had.
    pub fn note(&mut self, i: u32, number: u32, written: &WrittenKey<'_>) {
        let start = self.start_of(i);
        if let Some(Some(value)) = &written.value {
            let place = number as usize;
            if place < self.spots.as_slice().len() {
                self.spots[place] = value.spots_in_block(start);
            }
        }
    }

    /// Where the key of this number was written last.
    fn spots_of(&self, number: u32) -> Spots {
        let place = number as usize;
        if place < self.spots.as_slice().len() {
            self.spots[place]
        } else {
            NOWHERE
        }
    }

    /// The key of this number, to be kept. Takes memory if it isn't found.
    pub fn key(&self, number: u32, key: &StateKey<'_>) -> Result<KeptKey, AllocError>
        ensures { IfOk result (λ kept. kept ≡ key.now) }
    {
        let spots = self.spots_of(number);
        let (namespace, key) = (key.namespace(), key.key());
        match KeptKey::found(self.bytes, spots.namespace, spots.key, &namespace, &key)? {
            Some(kept) => Ok(kept),
            None => KeptKey::copied(self.alloc, &namespace, &key),
        }
    }

    /// The value that was written last at the key of this number, to be kept. Takes memory if it isn't found.
    pub fn value(&self, number: u32, value: &WrittenValue<'_>) -> Result<Part, AllocError>
        ensures { IfOk result (λ part. part ≡ value.now) }
    {
        let spots = self.spots_of(number);
        match Part::found(self.bytes, spots.value, value.as_slice())? {
            Some(part) => Ok(part),
            None => Part::copied(self.alloc, value.as_slice()),
        }
    }
}
