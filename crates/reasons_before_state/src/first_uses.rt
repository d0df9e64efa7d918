//! Where an id was used first.
ghost use Rattle.std.specs.Prelude.{◌≡◌, ◌<◌, ◌≤◌, List, Option, Some, IfSome, length, map, position};
ghost use Rattle.std.specs.List.{list_any};
ghost use Rattle.std.specs.Prelude.{option_to_list};
ghost use Rattle.std.specs.Str.{bytes_eq};
ghost use Rattle.block.specs.Limits.{max_txs};
ghost use Rattle.transaction.specs.declared.item.Item.{Item};
ghost use Rattle.policy_eval.specs.Accepts.{Accepts};
ghost use Rattle.channel.specs.Configuration.{Configuration};
ghost use Rattle.rules.specs.Candidate.{used_id};
ghost use Rattle.rules.specs.Commit.{job_of};
ghost use Rattle.rules.specs.Fold as fold;
ghost use Rattle.reasons.specs.Identity.{IsFirstUse};
ghost use Rattle.reasons.specs.declared.id_use.IdUse as use_of;

use reasons::IdUse;
use rules::Flag;
use transaction::TxId;
use world::World;

fn is_use(used: &Option<TxId>, id: &TxId) -> bool
    ensures { result ≡ list_any (bytes_eq id.now) (option_to_list used.now) }
{
    match used {
        None => false,
        Some(used) => used == id,
    }
}

/// The first of these places that uses the id.
fn place_of(ids: &[Option<TxId>], id: &TxId) -> Option<usize>
    ensures place { result ≡ position (λ used. list_any (bytes_eq id.now) (option_to_list used)) ids.now }
    ensures inside { IfSome result (λ place. place < length ids.now) }
{
    for (place, used) in ids.iter().enumerate() {
        if is_use(used, id) {
            return Some(place);
        }
    }
    None
}

/// Where the id was used before place i: in a block before, or at a place of this one, whose ids and flags these are.
pub(crate) fn first_use(
    world: &World,
    ids: &[Option<TxId>],
    flags: &[Flag],
    id: &TxId,
    i: usize,
) -> Option<IdUse>
    requires few { length ids.now ≤ max_txs }
    requires flags { length flags.now ≡ length ids.now }
    requires place { i ≤ length ids.now }
    ensures { (channel : Configuration) (accepts : Accepts) (items : List (Option Item)) → ids.now ≡ map (used_id channel accepts) items
        → flags.now ≡ fold.flags (job_of channel accepts world.now items)
        → (first : use_of.IdUse) → IsFirstUse channel accepts world.now items i id.now first → result ≡ Some first }
{
    if let Some(first) = world.flag_of(id) {
        return Some(IdUse::Earlier {
            block: first.block,
            place: first.place,
            flag: first.flag,
        });
    }
    let place = place_of(&ids[..i], id)?;
    Some(IdUse::Here {
        place: place as u32,
        flag: flags[place],
    })
}
