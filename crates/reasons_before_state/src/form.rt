//! Why read and write sets aren't in form.
ghost use Rattle.std.specs.Prelude.{◌≡◌, Some, map, option_map, IfOk};
ghost use Rattle.reasons.specs.First.{first_there};
ghost use Rattle.reasons.specs.declared.form_fault.FormFault.TheVariants.{NamespaceRepeats, KeyRepeats};
ghost use Rattle.reasons.specs.declared.key_list.KeyList.TheVariants.{Reads, Writes, PolicyWrites};
ghost use Rattle.reasons.specs.Form.{first_repeated, set_fault, form_fault};

use crate::policy_texts::policies_fault;
use crate::ranges_in_form::ranges_fault;
use crate::repeats::first_repeated;
use reasons::{FormFault, KeyList};
use std::alloc::{AllocError, Global};
use transaction::{NsSet, PolicyWrite, Read, Tx, Write};
use values::{KeyRef, NameRef};

fn key_repeats(
    alloc: Global,
    namespace: &NameRef<'_>,
    list: KeyList,
    key: &KeyRef<'_>,
) -> Result<Option<FormFault>, AllocError>
    ensures { IfOk result (λ fault. fault ≡ Some (KeyRepeats namespace.now list key.now)) }
{
    Ok(Some(FormFault::KeyRepeats {
        namespace: namespace.copy(alloc)?,
        list,
        key: key.copy(alloc)?,
    }))
}

fn repeated_read(
    alloc: Global,
    namespace: &NameRef<'_>,
    reads: &[Read<'_>],
) -> Result<Option<FormFault>, AllocError>
    ensures { IfOk result (λ fault. fault ≡ option_map (KeyRepeats namespace.now Reads) (first_repeated (map (λ r. r.key) reads.now))) }
{
    match first_repeated(alloc, reads)? {
        None => Ok(None),
        Some(read) => key_repeats(alloc, namespace, KeyList::Reads, &read.key),
    }
}

fn repeated_write(
    alloc: Global,
    namespace: &NameRef<'_>,
    writes: &[Write<'_>],
) -> Result<Option<FormFault>, AllocError>
    ensures { IfOk result (λ fault. fault ≡ option_map (KeyRepeats namespace.now Writes) (first_repeated (map (λ w. w.key) writes.now))) }
{
    match first_repeated(alloc, writes)? {
        None => Ok(None),
        Some(write) => key_repeats(alloc, namespace, KeyList::Writes, &write.key),
    }
}

fn repeated_policy_write(
    alloc: Global,
    namespace: &NameRef<'_>,
    writes: &[PolicyWrite<'_>],
) -> Result<Option<FormFault>, AllocError>
    ensures { IfOk result (λ fault. fault ≡ option_map (KeyRepeats namespace.now PolicyWrites) (first_repeated (map (λ w. w.key) writes.now))) }
{
    match first_repeated(alloc, writes)? {
        None => Ok(None),
        Some(write) => key_repeats(alloc, namespace, KeyList::PolicyWrites, &write.key),
    }
}

/// The first fault of what was done in a namespace.
fn set_fault(alloc: Global, set: &NsSet<'_>) -> Result<Option<FormFault>, AllocError>
    ensures { IfOk result (λ fault. fault ≡ set_fault set.now) }
{
    let name = &set.name;
    if let Some(fault) = repeated_read(alloc, name, set.reads.as_slice())? {
        return Ok(Some(fault));
    }
    if let Some(fault) = repeated_write(alloc, name, set.writes.as_slice())? {
        return Ok(Some(fault));
    }
    if let Some(fault) = repeated_policy_write(alloc, name, set.policy_writes.as_slice())? {
        return Ok(Some(fault));
    }
    if let Some(fault) = ranges_fault(alloc, name, set.ranges.as_slice())? {
        return Ok(Some(fault));
    }
    policies_fault(alloc, name, set.policy_writes.as_slice())
}

fn sets_fault(alloc: Global, sets: &[NsSet<'_>]) -> Result<Option<FormFault>, AllocError>
    ensures { IfOk result (λ fault. fault ≡ first_there (map set_fault sets.now)) }
{
    for set in sets {
        if let Some(fault) = set_fault(alloc, set)? {
            return Ok(Some(fault));
        }
    }
    Ok(None)
}

/// The first fault in form: a namespace that repeats, else that of the first set that has one.
pub(crate) fn form_fault(alloc: Global, tx: &Tx<'_>) -> Result<Option<FormFault>, AllocError>
    ensures { IfOk result (λ fault. fault ≡ form_fault tx.now) }
{
    let sets = tx.namespaces.as_slice();
    if let Some(set) = first_repeated(alloc, sets)? {
        return Ok(Some(FormFault::NamespaceRepeats {
            namespace: set.name.copy(alloc)?,
        }));
    }
    sets_fault(alloc, sets)
}
