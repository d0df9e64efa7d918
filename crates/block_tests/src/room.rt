//! Bytes one after another, which need no allocation.

// More than any case's transaction has.
const ROOM: usize = 2048;

/// Bytes for which there is no room are left out: what they are part of isn't read then.
#[derive(Clone, Copy)]
pub struct Room {
    bytes: [u8; ROOM],
    len: usize,
}

impl Room {
    /// Without bytes.
    pub fn new() -> Room {
        Room {
            bytes: [0; ROOM],
            len: 0,
        }
    }

    /// Adds the bytes, as far as there is room.
    pub fn put(&mut self, bytes: &[u8]) {
        for byte in bytes {
            if self.len < ROOM {
                self.bytes[self.len] = *byte;
                self.len += 1;
            }
        }
    }

    /// The place of the number of a list's items, none so far.
    pub fn begin_list(&mut self) -> usize {
        self.put(&[0]);
        let place = self.len;
        self.put(&[0]);
        place
    }

    /// Counts an item more of the list whose number is at this place.
    pub fn count_one(&mut self, place: usize) {
        if place < ROOM {
            self.bytes[place] = self.bytes[place].wrapping_add(1);
        }
    }

    /// What was put.
    pub fn as_slice(&self) -> &[u8] {
        self.bytes.get(..self.len).unwrap_or_default()
    }
}
