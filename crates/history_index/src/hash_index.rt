ghost use Rattle.std.specs.Prelude.{◌≡◌, ◌<◌, ◌≤◌, ◌+◌, ◌-◌, ◌^◌, [], ◌∷◌, ◌++◌, length, take, slice_index, OnOk, OnErr};
ghost use Rattle.history_index.specs.Places.{last_with};

use crate::links::{Link, bucket_of, last_from, link_all, replace_last};
use std::alloc::{AllocError, Global};
use std::marker::Model;

// places are counted by 32 bits
const MAX_PLACES: usize = u32::MAX as usize;

/// The hashes of the items at the places of a list, from the first on. A contract sees the hashes, and the room for
/// more.
#[derive(Drop)]
pub(crate) struct HashIndex {
    // of all places, in their order
    links: Vec<Link>,
    // for each bucket the last place that is in it; a power of two of them, or none
    buckets: Vec<u32>,
    // how many more places are sure to fit
    room: usize,
}

impl Model for HashIndex {
    ghost use Rattle.std.specs.Prelude.{◌+◌, ◌^◌, ◌<◌, ◌≤◌, vec_len, vec_capacity};
    ghost use Rattle.history_index.specs.Hashed.{Hashed, hashed_code};

    ghost Value = { Hashed };

    ghost coded = { hashed_code };

    ghost use Rattle.history_index.specs.Buckets.{hashes_of, AreLinked, KeepsLast};

    ghost view = { λ i. record { hashes = hashes_of i.links.items; room = i.room } };

    ghost invariant = { λ i. AreLinked (vec_len i.buckets) i.links.items × KeepsLast i.buckets.items (hashes_of i.links.items)
        × (vec_len i.links + i.room ≤ vec_capacity i.links) × (vec_len i.links + i.room ≤ vec_len i.buckets) × (vec_len i.links + i.room < 2 ^ 32) };
}

impl HashIndex {
    /// No places, and no room. Takes no memory.
    pub(crate) fn new(alloc: Global) -> HashIndex
        ensures hashes { result.hashes ≡ [] }
        ensures room { result.room ≡ 0 }
    {
        HashIndex {
            links: Vec::new(alloc),
            buckets: Vec::new(alloc),
            room: 0,
        }
    }

    /// How many places there are.
    pub(crate) fn len(&self) -> usize
        ensures { result ≡ length self.now.hashes }
    {
        self.links.len()
    }

    /// How many places can be added before the next `reserve`.
    pub(crate) fn room(&self) -> usize
        ensures { result ≡ self.now.room }
    {
        self.room
    }

    /// Makes room for this many places; fails if there would be 2^32 or more in all. An `Err` changes nothing. Linear
    /// in the places if there would be more of them than buckets, which at least double then, so that all calls
    /// together are linear in the room that they request.
    pub(crate) fn reserve(&mut self, additional: usize) -> Result<(), AllocError>
        ensures ok { OnOk result (additional ≤ self.new.room) }
        ensures room { self.old.room ≤ self.new.room }
        ensures hashes { self.new.hashes ≡ self.old.hashes }
        ensures few { length self.new.hashes + self.new.room < 2 ^ 32 }
        ensures err { OnErr result (self.new ≡ self.old) }
    {
        if additional > MAX_PLACES.saturating_sub(self.links.len()) {
            return Err(AllocError);
        }
        self.links.reserve(additional)?;
        let places = self.links.len() + additional;
        if places > self.buckets.len() {
            let alloc = *self.buckets.allocator();
            let mut buckets = vec![in alloc; 0; places.next_power_of_two()]?;
            link_all(self.links.as_mut_slice(), buckets.as_mut_slice());
            self.buckets = buckets;
        }
        self.room = self.room.max(additional);
        Ok(())
    }

    /// Adds a place after the others. Constant time, no memory.
    pub(crate) fn push(&mut self, hash: u32)
        requires { 0 < self.old.room }
        ensures hashes { self.new.hashes ≡ self.old.hashes ++ hash ∷ [] }
        ensures room { self.old.room ≡ self.new.room + 1 }
    {
        let place = self.links.len() as u32 + 1;
        let older = replace_last(self.buckets.as_mut_slice(), hash, place);
        self.links.push_reserved(Link { hash, older });
        self.room -= 1;
    }

    /// The last place with this hash, counted from 1, or 0 if there is none. Constant time on average.
    pub(crate) fn last(&self, hash: u32) -> usize
        ensures { result ≡ last_with hash self.now.hashes }
    {
        if self.buckets.is_empty() {
            return 0;
        }
        let place = self.buckets[bucket_of(self.buckets.len(), hash)];
        last_from(self.links.as_slice(), place as usize, hash)
    }

    /// The last place with the same hash before this one, or 0 if there is none. Constant time on average.
    pub(crate) fn before(&self, place: usize) -> usize
        requires some { 0 < place }
        requires bound { place ≤ length self.now.hashes }
        ensures { result ≡ last_with (slice_index self.now.hashes (place - 1)) (take (place - 1) self.now.hashes) }
    {
        let link = self.links[place - 1];
        last_from(self.links.as_slice(), link.older as usize, link.hash)
    }
}
