ghost use Rattle.std.specs.Prelude.{◌≡◌, ◌++◌, length, IfOk, OnOk};

use std::alloc::AllocError;
use verdicts::Piece;

/// Puts bytes at the end of a pool.
pub(crate) fn put(pool: &mut Vec<u8>, bytes: &[u8]) -> Result<Piece, AllocError>
    ensures piece { IfOk result (λ p. p ≡ record { at = length pool.old.items; len = length bytes.now }) }
    ensures pool { OnOk result (pool.new.items ≡ pool.old.items ++ bytes.now) }
{
    let at = pool.len();
    pool.extend_from_slice(bytes)?;
    Ok(Piece {
        at,
        len: bytes.len(),
    })
}
