use arrayvec::ArrayString;
use std::fmt;
use std::fmt::{Display, Write};
use std::str::from_utf8;

const ROOM: usize = 64;

/// A text of at most 64 bytes, which takes no memory and is copied as a number is.
#[derive(Clone, Copy)]
pub struct Text {
    bytes: [u8; ROOM],
    length: usize,
}

impl Text {
    /// What `shown` displays, or an empty text where that has more than 64 bytes.
    pub fn of<D: Display>(shown: &D) -> Text {
        let mut text: ArrayString<ROOM> = ArrayString::new();
        let is_shown = write!(text, "{shown}").is_ok();
        let mut bytes = [0; ROOM];
        for (to, byte) in bytes.iter_mut().zip(text.as_str().as_bytes()) {
            *to = *byte;
        }
        Text {
            bytes,
            length: if is_shown { text.len() } else { 0 },
        }
    }

    /// The text, which is empty where it was longer than 64 bytes.
    pub fn as_str(&self) -> &str {
        let bytes = self.bytes.get(..self.length).unwrap_or(&[]);
        from_utf8(bytes).unwrap_or("")
    }
}

impl fmt::Debug for Text {
    fn fmt<W: Write>(&self, f: &mut fmt::Formatter<W>) -> fmt::Result {
        f.write_str(self.as_str())
    }
}
