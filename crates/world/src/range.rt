ghost use Rattle.std.specs.Prelude.{◌≡◌, map, take, length, nat_lt, IfOk};

use rules::KeyedRow;
use state_db::Rows;
use std::alloc::{AllocError, Global};

/// Rows in the order of their keys, up to a limit.
#[derive(Drop)]
pub struct RangeAnswer<'a> {
    pub rows: Vec<&'a KeyedRow>,
    /// Whether some are left.
    pub more: bool,
}

/// The rows up to a limit.
pub(crate) fn up_to<'a>(
    alloc: Global,
    left: Rows<'a>,
    limit: usize,
) -> Result<RangeAnswer<'a>, AllocError>
    ensures rows { IfOk result (λ answer. map (λ row. row.now) answer.rows.items ≡ take limit left.entry) }
    ensures more { IfOk result (λ answer. answer.more ≡ nat_lt limit (length left.entry)) }
{
    let mut rows = Vec::new(alloc);
    for row in left {
        if rows.len() == limit {
            return Ok(RangeAnswer { rows, more: true });
        }
        rows.push(row)?;
    }
    Ok(RangeAnswer { rows, more: false })
}
