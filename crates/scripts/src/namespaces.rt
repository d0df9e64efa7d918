//! What a transaction read and wrote, in all of its namespaces.
ghost use Rattle.std.specs.Prelude.{◌≡◌, []};
ghost use Rattle.scripts.specs.Script as spec;
ghost use Rattle.scripts.specs.Taking.{Changes};

use crate::namespace::{MAX_LIST, OwnedNsSet, push_one};
use crate::saying::Entry;
use std::alloc::{AllocError, Global};
use std::marker::Model;
use values::Name;

/// The namespaces of a transaction, in order. A contract sees the list of them.
#[derive(Drop)]
pub struct Namespaces {
    list: Vec<OwnedNsSet>,
}

impl Model for Namespaces {
    ghost use Rattle.std.specs.Prelude.{List};
    ghost use Rattle.transaction.specs.declared.transaction.NsSet.{NsSet};

    ghost Value = { List NsSet };

    ghost view = { λ s. s.list.items };
}

// Adds a line to the last namespace, or answers no where it can't stand there.
fn add_to_last(namespaces: &mut Vec<OwnedNsSet>, entry: Entry) -> Result<bool, AllocError>
    ensures { Changes result namespaces.new.items (spec.one_entry_more entry namespaces.old.items) }
{
    match namespaces.last_mut() {
        Some(last) => last.add(entry),
        None => Ok(false),
    }
}

impl Namespaces {
    /// No namespaces. Takes no memory.
    pub fn new(alloc: Global) -> Namespaces
        ensures { result ≡ [] }
    {
        Namespaces {
            list: Vec::new(alloc),
        }
    }

    // Adds a namespace, which is open from then on, or answers no where there are the most.
    pub(crate) fn add(&mut self, alloc: Global, name: Name) -> Result<bool, AllocError>
        ensures { Changes result self.new (spec.one_namespace_more name self.old) }
    {
        push_one(&mut self.list, MAX_LIST, OwnedNsSet::new(alloc, name))
    }

    // Adds a line to the last namespace, or answers no where it can't stand there.
    pub(crate) fn add_entry(&mut self, entry: Entry) -> Result<bool, AllocError>
        ensures { Changes result self.new (spec.one_entry_more entry self.old) }
    {
        add_to_last(&mut self.list, entry)
    }

    /// The namespaces, in order.
    pub fn as_slice(&self) -> &[OwnedNsSet]
        ensures { result.now ≡ self.now }
    {
        self.list.as_slice()
    }
}
