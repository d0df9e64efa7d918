//! What a script says of one transaction, or of one update of a definition.
ghost use Rattle.std.specs.Prelude.{◌≡◌};
ghost use Rattle.scripts.specs.Script as spec;
ghost use Rattle.scripts.specs.Taking.{Changes};

use crate::namespace::add_one;
use crate::namespaces::Namespaces;
use crate::saying::Entry;
use std::alloc::{AllocError, Global};
use std::marker::Model;
use transaction::{Identity, MAX_ENDORSEMENTS, OwnedIdentity};
use values::{Bytes, Items, Name, NameRef};

/// What a transaction or an update has beside creator, nonce and chaincode.
#[derive(Drop)]
pub enum Content {
    /// What a transaction read and wrote.
    Tx(Namespaces),
    /// The text of the policy that an update gives its chaincode; it may be no policy.
    Update(Bytes),
}

/// A transaction or an update as a script says it: all but its channel, its id and its signatures, which are
/// computed.
#[derive(Drop)]
pub struct Draft {
    pub(crate) line: u64,
    pub(crate) creator: OwnedIdentity,
    pub(crate) nonce: Bytes,
    pub(crate) chaincode: Name,
    pub(crate) content: Content,
    pub(crate) endorsers: Items<OwnedIdentity>,
}

impl Model for Draft {
    ghost use Rattle.scripts.specs.Draft as spec;

    ghost Value = { spec.Draft };

    ghost view = { λ d. record { line = d.line; creator = d.creator; nonce = d.nonce; chaincode = d.chaincode; content = d.content; endorsers = d.endorsers } };
}

impl Content {
    // Adds a namespace, or answers no where there are the most, or where it is an update's.
    fn add_namespace(&mut self, alloc: Global, name: Name) -> Result<bool, AllocError>
        ensures { Changes result self.new (spec.in_namespaces (spec.one_namespace_more name) self.old) }
    {
        match self {
            Content::Tx(namespaces) => namespaces.add(alloc, name),
            Content::Update(_) => Ok(false),
        }
    }

    // Adds a line to the last namespace, or answers no where it can't stand there.
    fn add_entry(&mut self, entry: Entry) -> Result<bool, AllocError>
        ensures { Changes result self.new (spec.in_namespaces (spec.one_entry_more entry) self.old) }
    {
        match self {
            Content::Tx(namespaces) => namespaces.add_entry(entry),
            Content::Update(_) => Ok(false),
        }
    }
}

impl Draft {
    // Adds a namespace, which is open from then on, or answers no where it can't stand there.
    pub(crate) fn add_namespace(&mut self, alloc: Global, name: Name) -> Result<bool, AllocError>
        ensures { Changes result self.new (spec.with_namespace name self.old) }
    {
        self.content.add_namespace(alloc, name)
    }

    // Adds a line to the last namespace, or answers no where it can't stand there.
    pub(crate) fn add_entry(&mut self, entry: Entry) -> Result<bool, AllocError>
        ensures { Changes result self.new (spec.with_addition entry self.old) }
    {
        self.content.add_entry(entry)
    }

    // Adds an endorser, or answers no where there are the most.
    pub(crate) fn add_endorser(&mut self, endorser: OwnedIdentity) -> Result<bool, AllocError>
        ensures { Changes result self.new (spec.with_endorser endorser self.old) }
    {
        add_one(&mut self.endorsers, MAX_ENDORSEMENTS, endorser)
    }

    /// The number of its `tx` or `update` line.
    pub fn line(&self) -> u64
        ensures { result ≡ self.now.line }
    {
        self.line
    }

    /// The creator.
    pub fn creator(&self) -> Identity<'_>
        ensures { result ≡ self.now.creator }
    {
        self.creator.lend()
    }

    /// The nonce.
    pub fn nonce(&self) -> &Bytes
        ensures { result.now ≡ self.now.nonce }
    {
        &self.nonce
    }

    /// The chaincode that a transaction names, or whose definition an update changes.
    pub fn chaincode(&self) -> NameRef<'_>
        ensures { result ≡ self.now.chaincode }
    {
        self.chaincode.lend()
    }

    /// What it has beside creator, nonce and chaincode.
    pub fn content(&self) -> &Content
        ensures { result.now ≡ self.now.content }
    {
        &self.content
    }

    /// The endorsers, in the order of their lines.
    pub fn endorsers(&self) -> &[OwnedIdentity]
        ensures { result.now ≡ self.now.endorsers }
    {
        self.endorsers.as_slice()
    }
}
