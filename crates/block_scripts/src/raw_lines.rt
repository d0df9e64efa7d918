//! The lines that state bytes as they are.
ghost use Rattle.std.specs.Prelude.{◌≡◌, [], ◌∷◌, ◌++◌, codes, IfOk, OnOk};
ghost use Rattle.std.specs.List.{AllByRecursion};
ghost use Rattle.hex.specs.Hex.{IsBytes};
ghost use Rattle.scripts.specs.RawLines as spec;

use std::alloc::{AllocError, Global};
use values::{Bytes, Slice};

fn write_digits(out: &mut Vec<u8>, digits: &[u8]) -> Result<(), AllocError>
    ensures { OnOk result (out.new.items ≡ out.old.items ++ (codes "raw " ++ (digits.now ++ 10 ∷ []))) }
{
    out.extend_from_slice(b"raw ")?;
    out.extend_from_slice(digits)?;
    out.extend_from_slice(b"\n")?;
    Ok(())
}

/// Writes the line at the end. Allocates memory for its digits.
pub(crate) fn write_raw(alloc: Global, out: &mut Vec<u8>, bytes: &[u8]) -> Result<(), AllocError>
    ensures written { OnOk result (out.new.items ≡ out.old.items ++ spec.raw_line bytes.now) }
    ensures bytes { IsBytes bytes.now }
{
    if bytes.is_empty() {
        return out.extend_from_slice(b"raw\n");
    }
    let digits = hex::encode(alloc, bytes)?;
    write_digits(out, digits.as_bytes())
}

/// The line of each, in order.
pub(crate) fn raw_lines(alloc: Global, txs: &[Slice<'_>]) -> Result<Bytes, AllocError>
    ensures lines { IfOk result (λ lines. lines ≡ spec.raw_lines txs.now) }
    ensures bytes { IfOk result (λ lines. AllByRecursion IsBytes txs.now) }
{
    let mut lines = Vec::new(alloc);
    for tx in txs {
        write_raw(alloc, &mut lines, tx.as_slice())?;
    }
    Ok(Bytes::from_vec(lines))
}
