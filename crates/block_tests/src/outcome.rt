//! The results of a small block: flags, changes and definitions.

use crate::building::Ground;
use crate::cases::{JobCase, Rule};
use crate::spelling::text_of;
use effects::{Effects, effects_of};
use key_chains::Job;
use rules::{Change, Flag, NewDefinition};
use serial_checks::flags;
use std::alloc::Global;
use test_support::Failed;
use values::{Bytes, Shared};

#[derive(Clone, Copy)]
pub struct Outcome {
    pub flags: &'static [Flag],
    /// The keys that change, in their order, and whether they have a row from then on.
    pub changes: &'static [(&'static [u8], bool)],
    /// How many entries the histories get.
    pub entries: usize,
    /// The policy that the first chaincode gets.
    pub definition: Option<Rule>,
}

fn has_flags(alloc: Global, job: &Job<'_, '_>, wanted: &[Flag]) -> Result<bool, Failed> {
    let flags = flags(alloc, job)?;
    Ok(flags.as_slice() == wanted)
}

// The effects keep copies of what is written.
fn effects(alloc: Global, job: &Job<'_, '_>) -> Result<Effects, Failed> {
    let flags = flags(alloc, job)?;
    let bytes = Shared::new(alloc, Bytes::from_vec(Vec::new(alloc)))?;
    Ok(effects_of(alloc, job, flags.as_slice(), &bytes, &[])?)
}

fn are_changes(changes: &[Change], wanted: &[(&[u8], bool)]) -> bool {
    for (change, &(key, is_put)) in changes.iter().zip(wanted) {
        if change.key().as_slice() != key || change.row().is_some() != is_put {
            return false;
        }
    }
    changes.len() == wanted.len()
}

fn is_definition(alloc: Global, definition: &NewDefinition, rule: Rule) -> Result<bool, Failed> {
    let text = definition.policy.get().text(alloc)?;
    Ok(definition.chaincode.as_slice() == b"cc".as_slice() && text.as_bytes() == text_of(rule))
}

fn are_definitions(
    alloc: Global,
    definitions: &[NewDefinition],
    wanted: Option<Rule>,
) -> Result<bool, Failed> {
    match (definitions, wanted) {
        ([], None) => Ok(true),
        ([definition], Some(rule)) => is_definition(alloc, definition, rule),
        _ => Ok(false),
    }
}

fn are_effects(alloc: Global, effects: &Effects, wanted: &Outcome) -> Result<bool, Failed> {
    if !are_changes(effects.changes.as_slice(), wanted.changes)
        || effects.entries.len() != wanted.entries
    {
        return Ok(false);
    }
    are_definitions(alloc, effects.definitions.as_slice(), wanted.definition)
}

fn is_outcome(alloc: Global, job: &Job<'_, '_>, wanted: &Outcome) -> Result<bool, Failed> {
    if !has_flags(alloc, job, wanted.flags)? {
        return Ok(false);
    }
    let effects = effects(alloc, job)?;
    are_effects(alloc, &effects, wanted)
}

/// Whether these are the results of the case's block.
pub fn comes_out(alloc: Global, case: &JobCase, wanted: &Outcome) -> Result<bool, Failed> {
    let ground = Ground::of(alloc, case)?;
    let job = ground.job(alloc, case)?;
    is_outcome(alloc, &job, wanted)
}
