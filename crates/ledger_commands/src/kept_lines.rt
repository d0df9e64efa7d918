//! Lines that are kept until they are many, and then written. None is written in part, unless a write fails.
ghost use Rattle.std.specs.Prelude.{◌≡◌, [], OnOk};
ghost use Rattle.std.specs.Io.KnownBytes.{Appends};
ghost use Rattle.ledger_commands.specs.Kept.{Adds};

use std::io;
use std::io::Write;

// This many bytes are worth a write.
const MANY: usize = 1 << 15;

/// Writes what is kept, and keeps nothing.
pub(crate) fn write_kept<W: Write>(kept: &mut Vec<u8>, out: &mut W) -> io::Result<()>
    ensures written { OnOk result (Appends (W.contents out.old) (W.contents out.new) kept.old.items) }
    ensures empty { OnOk result (kept.new.items ≡ []) }
{
    out.write_all(kept.as_slice())?;
    kept.clear();
    Ok(())
}

/// Writes what is kept if it is much.
pub(crate) fn write_many<W: Write>(kept: &mut Vec<u8>, out: &mut W) -> io::Result<()>
    ensures { OnOk result (Adds (W.contents out.old) kept.old.items (W.contents out.new) kept.new.items []) }
{
    if kept.len() < MANY {
        return Ok(());
    }
    write_kept(kept, out)
}
