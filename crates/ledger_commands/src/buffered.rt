//! Lines that are written through a buffer.

use command_files::Fault;
use std::io::{BufWriter, Write};

/// Ends lines that were written through a buffer: what is left in it is written, unless a write has
/// failed. Behind a failed write nothing is written. An `Err` is that of the lines, or of the last write.
pub fn finish<'a, T: Drop, W: Write + Drop>(
    mut lines: BufWriter<W>,
    ended: Result<T, Fault<'a>>,
) -> Result<T, Fault<'a>> {
    let written = match ended {
        Err(Fault::Output) => Ok(()),
        _ => lines.flush(),
    };
    // To drop the buffer would write what a failed write left in it.
    let (_, _) = lines.into_parts();
    written?;
    ended
}
