//! Where what a transaction writes is in its bytes, which no contract states.

use transaction::{NsSet, SpelledTx};
use values::found_at;

// Whether the keys and values that a namespace writes are at the places that it states, if it is itself at this place.
fn are_writes_found(bytes: &[u8], place: usize, set: &NsSet<'_>) -> bool {
    let mut place = place.wrapping_add(set.writes_place());
    for write in set.writes.as_slice() {
        let key = place.wrapping_add(write.key_place());
        if found_at(bytes, key, write.key.as_slice()).is_none() {
            return false;
        }
        if let Some(value) = &write.value {
            let place = place.wrapping_add(write.value_place());
            if found_at(bytes, place, value.as_slice()).is_none() {
                return false;
            }
        }
        place = place.wrapping_add(write.spelled_len());
    }
    true
}

/// Whether all that the namespaces write is at the places that they state; the last of them ends the body.
pub fn is_all_found(bytes: &[u8], spelled: &SpelledTx<'_>) -> bool {
    let mut place = spelled.tx().namespaces_place();
    for set in spelled.tx().namespaces.as_slice() {
        let name = place.wrapping_add(set.name_place());
        if found_at(bytes, name, set.name.as_slice()).is_none() {
            return false;
        }
        if !are_writes_found(bytes, place, set) {
            return false;
        }
        place = place.wrapping_add(set.spelled_len());
    }
    place == spelled.body().len()
}
