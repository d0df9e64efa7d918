//! Lines of the input.

use std::io;
use std::io::{BufRead, ErrorKind, Read};

/// The most bytes that a line has before its line feed.
const MAX_LINE: usize = 1 << 20;

/// What the input has next.
#[derive(Clone, Copy, Debug, PartialEq, Eq)]
pub(crate) enum NextLine {
    /// A line with its line feed, which the last one may lack.
    Whole,
    /// A line that is too long. The input is after it.
    TooLong,
    /// A line for which there was no memory. The input is after it.
    NoMemory,
    /// Nothing.
    End,
}

// Whether it is all of a line, of which at most one byte more than such a line has was read.
fn is_whole(line: &[u8]) -> bool {
    line.len() <= MAX_LINE || line.ends_with(b"\n")
}

/// Reads the next line into the list, in place of what that has. The memory is the line's, twice its length at most.
pub(crate) fn next_line<I: BufRead>(input: &mut I, line: &mut Vec<u8>) -> io::Result<NextLine> {
    line.clear();
    let most = MAX_LINE as u64 + 1;
    let next = match input.by_ref().take(most).read_until(b'\n', line) {
        Ok(0) => return Ok(NextLine::End),
        Ok(_) if is_whole(line.as_slice()) => return Ok(NextLine::Whole),
        Ok(_) => NextLine::TooLong,
        Err(error) if error.kind() == ErrorKind::OutOfMemory => NextLine::NoMemory,
        Err(error) => return Err(error),
    };
    input.skip_until(b'\n')?;
    Ok(next)
}
