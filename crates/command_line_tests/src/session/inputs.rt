//! Inputs that fail, and how many answers there are.

use std::io;
use std::io::{ErrorKind, Read};

/// A reader that gives these bytes, two at most at a time, and then fails.
#[derive(Drop)]
pub(crate) struct Failing<'b> {
    left: &'b [u8],
}

impl<'b> Failing<'b> {
    pub(crate) fn after(bytes: &'b [u8]) -> Failing<'b> {
        Failing { left: bytes }
    }
}

impl Read for Failing<'_> {
    fn read(&mut self, buf: &mut [u8]) -> io::Result<usize> {
        if self.left.is_empty() {
            return Err(io::Error::from(ErrorKind::Other));
        }
        let count = self.left.len().min(buf.len()).min(2);
        for (to, from) in buf.iter_mut().zip(self.left) {
            *to = *from;
        }
        self.left = &self.left[count..];
        Ok(count)
    }
}

/// How many lines begin as the end of an answer does.
pub(crate) fn ends_in(out: &[u8]) -> usize {
    let mut count = 0;
    for line in out.split(|byte| *byte == b'\n') {
        if line.starts_with(b"end ") {
            count += 1;
        }
    }
    count
}
