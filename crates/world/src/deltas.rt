ghost use Rattle.std.specs.Prelude.{◌≡◌, ◌≤◌, ◌+◌, [], ◌∷◌, ◌++◌, length, vec_len, vec_capacity, unwrap_or, IfOk, OnOk};
ghost use Rattle.rules.specs.History.{with_entries};
ghost use Rattle.rules.specs.FirstUses.{with_uses};
ghost use Rattle.policy.specs.Policies.{Policies};
ghost use Rattle.rules.specs.Definitions.{with_definitions};
ghost use Rattle.rules.specs.Delta.{entries_in, uses_in, definitions_in};

use history_index::HistoryIndex;
use policy::Definitions;
use rules::{CommittedBlock, Delta, KeptEntry, NewDefinition, NewUse};
use std::alloc::{AllocError, Global};
use txid_index::TxIds;
use values::{Items, Shared};

fn add_definitions(
    alloc: Global,
    definitions: &mut Definitions,
    more: &[NewDefinition],
) -> Result<(), AllocError>
    ensures { OnOk result (definitions.new ≡ with_definitions definitions.old (definitions_in more.now)) }
{
    for definition in more {
        definitions.set(&definition.chaincode, definition.policy.get().copy(alloc)?)?;
    }
    Ok(())
}

/// The policies of chaincodes with those of a delta; none where it has none. A copy, since worlds stand on those that are there.
pub(crate) fn definitions_with(
    alloc: Global,
    definitions: &Definitions,
    more: &[NewDefinition],
) -> Result<Option<Shared<Definitions>>, AllocError>
    ensures { IfOk result (λ made. unwrap_or made definitions.now ≡ with_definitions definitions.now (definitions_in more.now)) }
{
    if more.is_empty() {
        return Ok(None);
    }
    let mut made = definitions.copy(alloc)?;
    add_definitions(alloc, &mut made, more)?;
    Ok(Some(Shared::new(alloc, made)?))
}

pub(crate) fn share_definitions(
    definitions: &Option<Shared<Definitions>>,
) -> Result<Option<Shared<Definitions>>, AllocError>
    ensures { IfOk result (λ shared. shared ≡ definitions.now) }
{
    match definitions {
        None => Ok(None),
        Some(definitions) => Ok(Some(definitions.share()?)),
    }
}

/// What a world keeps of a delta; and the policies of chaincodes that it has behind it, where these change.
#[derive(Drop)]
pub(crate) struct Kept {
    pub(crate) entries: Shared<Items<KeptEntry>>,
    pub(crate) uses: Shared<Items<NewUse>>,
    pub(crate) definitions: Option<Shared<Definitions>>,
    pub(crate) block: Shared<CommittedBlock>,
}

/// Makes room for a delta. An `Err` changes nothing but the room.
pub(crate) fn make_room(
    history: &mut HistoryIndex,
    ids: &mut TxIds,
    blocks: &mut Vec<Shared<CommittedBlock>>,
    delta: &Delta,
) -> Result<(), AllocError>
    ensures same { (history.new.history ≡ history.old.history) × (ids.new.uses ≡ ids.old.uses) × (blocks.new.items ≡ blocks.old.items) }
    ensures history { OnOk result (length delta.now.entries ≤ history.new.room) }
    ensures ids { OnOk result (length delta.now.uses ≤ ids.new.room) }
    ensures blocks { OnOk result (vec_len blocks.new + 1 ≤ vec_capacity blocks.new) }
{
    history.reserve(delta.entries.get().len())?;
    ids.reserve(delta.uses.get().len())?;
    blocks.reserve(1)?;
    Ok(())
}

/// What a world keeps of a delta that is lent, with one owner more. Takes no memory.
pub(crate) fn share_kept(
    delta: &Delta,
    definitions: &Option<Shared<Definitions>>,
) -> Result<Kept, AllocError>
    ensures entries { IfOk result (λ kept. kept.entries ≡ delta.now.entries) }
    ensures uses { IfOk result (λ kept. kept.uses ≡ delta.now.uses) }
    ensures definitions { IfOk result (λ kept. kept.definitions ≡ definitions.now) }
    ensures block { IfOk result (λ kept. kept.block ≡ delta.now.block) }
{
    Ok(Kept {
        entries: delta.entries.share()?,
        uses: delta.uses.share()?,
        definitions: share_definitions(definitions)?,
        block: delta.block.share()?,
    })
}

/// Keeps it. Takes no memory.
pub(crate) fn keep(
    history: &mut HistoryIndex,
    ids: &mut TxIds,
    made: &mut Option<Shared<Definitions>>,
    blocks: &mut Vec<Shared<CommittedBlock>>,
    kept: Kept,
)
    requires history { length kept.entries ≤ history.old.room }
    requires ids { length kept.uses ≤ ids.old.room }
    requires blocks { vec_len blocks.old + 1 ≤ vec_capacity blocks.old }
    ensures history { history.new.history ≡ with_entries history.old.history (entries_in kept.entries) }
    ensures ids { ids.new.uses ≡ with_uses ids.old.uses (uses_in kept.uses) }
    ensures definitions { (opened : Policies) → unwrap_or made.new opened ≡ unwrap_or kept.definitions (unwrap_or made.old opened) }
    ensures blocks { blocks.new.items ≡ blocks.old.items ++ kept.block ∷ [] }
{
    let Kept {
        entries,
        uses,
        definitions,
        block,
    } = kept;
    history.add(entries);
    ids.add(uses);
    if definitions.is_some() {
        *made = definitions;
    }
    blocks.push_reserved(block);
}
