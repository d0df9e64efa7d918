//! The state, the history and the definitions that the valid candidates of a block lead to.
ghost use Rattle.std.specs.Prelude.{◌≡◌, length, IfOk};
ghost use Rattle.rules.specs.State.{with_changes};
ghost use Rattle.rules.specs.History as history;
ghost use Rattle.rules.specs.History.{with_entries};
ghost use Rattle.rules.specs.Delta.{AreRealChanges, changes_in, entries_in, definitions_in};
ghost use Rattle.rules.specs.Fold as fold;
ghost use Rattle.rules.specs.Fold.{final_state, entries_to, definitions_to};

use crate::changes::changes_to_rows;
use crate::defining::definitions_of;
use crate::keeping::Keeping;
use crate::writing::write_block;
use candidates::keys_have_one_order;
use key_chains::Job;
use rules::{Change, Flag, KeptEntry, NewDefinition};
use std::alloc::{AllocError, Global};
use values::{Bytes, Shared};

/// What a block changes, but for the ids that it uses.
#[derive(Drop)]
pub struct Effects {
    /// One for each key that some valid transaction writes, in the keys' order, with what the key has after all of
    /// them; but none for a key that has no row then and had none before the block.
    pub changes: Vec<Change>,
    /// One for each value write or delete of a valid transaction: transaction by transaction, and in each in the keys'
    /// order. The contract states which history they make, and not how those of several keys are mixed.
    pub entries: Vec<KeptEntry>,
    /// One for each valid update, in their order.
    pub definitions: Vec<NewDefinition>,
}

/// The effects of a block whose flags these are.
///
/// Rows and entries keep keys and values as slices of these bytes, where the transactions begin at these places: what
/// is found there isn't copied. No contract mentions bytes and places, and wrong ones only cost copies. Definitions are
/// copied from their updates. Linear in the candidates and in what the block writes; the only `Err` is out of memory.
pub fn effects_of(
    alloc: Global,
    job: &Job<'_, '_>,
    flags: &[Flag],
    bytes: &Shared<Bytes>,
    starts: &[usize],
) -> Result<Effects, AllocError>
    requires { flags.now ≡ fold.flags job.now }
    ensures state { IfOk result (λ e. with_changes job.now.state (changes_in e.changes.items) ≡ final_state job.now) }
    ensures changes { IfOk result (λ e. AreRealChanges job.now.state (changes_in e.changes.items)) }
    ensures history { IfOk result (λ e. (h : history.History) → with_entries h (entries_in e.entries.items) ≡ with_entries h (entries_to job.now (length job.now.candidates))) }
    ensures definitions { IfOk result (λ e. definitions_in e.definitions.items ≡ definitions_to job.now (length job.now.candidates)) }
{
    keys_have_one_order();
    let keys = job.keys();
    let mut keeping = Keeping::new(alloc, bytes, starts, keys.len())?;
    let written = write_block(&mut keeping, job, flags)?;
    Ok(Effects {
        changes: changes_to_rows(alloc, &keeping, keys, written.rows)?,
        entries: written.entries,
        definitions: definitions_of(alloc, job, flags)?,
    })
}
