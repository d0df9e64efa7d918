ghost use Rattle.std.specs.Prelude.{◌≡◌, ◌++◌, [], option_to_list, IfOk, OnOk};
ghost use Rattle.rules.specs.Candidate.{is_used};
ghost use Rattle.txid_index.specs.Marks.{marks};
ghost use Rattle.txid_index.specs.SameIds.{HaveSameIds};

use crate::id_key::IdKey;
use crate::ids::TxIds;
use std::alloc::{AllocError, Global};
use std::collections::HashSet;
use transaction::TxId;

/// Whether the id of a place is used, before or at an earlier place. It is an earlier one from then on.
fn mark(before: &TxIds, earlier: &mut HashSet<IdKey>, id: &Option<TxId>) -> Result<bool, AllocError>
    ensures used { IfOk result (λ used. used ≡ is_used before.now.uses earlier.old.keys id.now) }
    ensures earlier { OnOk result (HaveSameIds (earlier.old.keys ++ option_to_list id.now) earlier.new.keys) }
{
    let Some(id) = id else {
        return Ok(false);
    };
    let is_used = before.first_use(id).is_some();
    let is_new = earlier.insert(IdKey::new(id))?;
    Ok(is_used || !is_new)
}

/// The marks of a block's places, over the uses before it.
pub(crate) fn marked(
    before: &TxIds,
    alloc: Global,
    ids: &[Option<TxId>],
) -> Result<Vec<bool>, AllocError>
    ensures { IfOk result (λ used. used.items ≡ marks before.now.uses [] ids.now) }
{
    let mut used = Vec::with_capacity(alloc, ids.len())?;
    let mut earlier = HashSet::with_capacity(alloc, ids.len())?;
    for id in ids {
        let is_used = mark(before, &mut earlier, id)?;
        used.push(is_used)?;
    }
    Ok(used)
}
