ghost use Rattle.std.specs.Prelude.{◌≡◌, ◌<◌, ◌≤◌, ◌+◌, ◌^◌, ℕ, List, [], ◌∷◌, ◌++◌, length, take};
ghost use Rattle.history_index.specs.Places.{last_with};
ghost use Rattle.history_index.specs.Buckets.{bucket_of, last_in, hashes_of, AreLinked, IsChain, KeepsLast, LeadBack};

/// The hash of the item at a place, and the last place before it that is in the same bucket. Places count from 1, 0 is
/// none.
#[derive(Clone, Copy)]
pub(crate) struct Link {
    pub hash: u32,
    pub older: u32,
}

/// The bucket of a hash, of this many buckets.
pub(crate) fn bucket_of(buckets: usize, hash: u32) -> usize
    requires { 0 < buckets }
    ensures bucket { result ≡ bucket_of buckets hash }
    ensures bound { result < buckets }
{
    hash as usize & (buckets - 1)
}

/// Puts the next place into the bucket of its hash, and returns the one that was the last there.
pub(crate) fn replace_last(buckets: &mut [u32], hash: u32, place: u32) -> u32
    requires { 0 < length buckets.old }
    ensures linked { (hashes : List ℕ) → KeepsLast buckets.old hashes → place ≡ length hashes + 1 → result ≡ last_in (length buckets.old) (bucket_of (length buckets.old) hash) hashes }
    ensures kept { (hashes : List ℕ) → KeepsLast buckets.old hashes → place ≡ length hashes + 1 → KeepsLast buckets.new (hashes ++ hash ∷ []) }
{
    let bucket = bucket_of(buckets.len(), hash);
    let older = buckets[bucket];
    buckets[bucket] = place;
    older
}

/// Links all places anew, over buckets that have none yet. Linear in the places.
pub(crate) fn link_all(links: &mut [Link], buckets: &mut [u32])
    requires buckets { 0 < length buckets.old }
    requires few { length links.old < 2 ^ 32 }
    requires fresh { KeepsLast buckets.old [] }
    ensures hashes { hashes_of links.new ≡ hashes_of links.old }
    ensures linked { AreLinked (length buckets.old) links.new }
    ensures kept { KeepsLast buckets.new (hashes_of links.old) }
{
    for index in 0..links.len() {
        let hash = links[index].hash;
        links[index].older = replace_last(buckets, hash, index as u32 + 1);
    }
}

/// The last place with this hash, from a place of its bucket on.
pub(crate) fn last_from(links: &[Link], from: usize, hash: u32) -> usize
    requires bound { from ≤ length links.now }
    requires back { LeadBack links.now }
    ensures { (buckets : ℕ) → AreLinked buckets links.now → IsChain buckets (bucket_of buckets hash) (hashes_of links.now) from → result ≡ last_with hash (take from (hashes_of links.now)) }
{
    let mut place = from;
    while place > 0 {
        let link = links[place - 1];
        if link.hash == hash {
            return place;
        }
        place = link.older as usize;
    }
    0
}
