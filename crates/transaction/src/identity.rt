ghost use Rattle.std.specs.Prelude.{◌≡◌, length};
ghost use Rattle.transaction.specs.Grammar.{identity_bytes};
ghost use Rattle.transaction.specs.Same.{is_same_identity};

use std::marker::Model;
use values::{Bytes, Name, NameRef, Slice};

/// What an identity may act as in its organization.
#[derive(Clone, Copy, Debug, PartialEq, Eq)]
pub enum Role {
    Admin,
    Client,
    Peer,
    Orderer,
}

/// Who creates or endorses a transaction: a member of an organization, told from the others by its label. Lent.
#[derive(Drop)]
pub struct Identity<'a> {
    pub org: NameRef<'a>,
    pub role: Role,
    pub label: Slice<'a>,
}

impl<'a> Identity<'a> {
    /// This identity once more, lent for as long.
    pub fn reborrow(&self) -> Identity<'a>
        ensures { result ≡ self.now }
    {
        Identity {
            org: self.org.reborrow(),
            role: self.role,
            label: self.label.reborrow(),
        }
    }

    /// Whether both are one identity: organization, role and label are equal. Linear in their bytes.
    pub fn is_same(&self, other: &Identity<'_>) -> bool
        ensures { result ≡ is_same_identity self.now other.now }
    {
        // the cheapest comparison comes first
        self.role == other.role && self.org.is_same(&other.org) && self.label.is_same(&other.label)
    }

    /// How many bytes spell it.
    pub(crate) fn bytes_len(&self) -> usize
        ensures { result ≡ length (identity_bytes self.now) }
    {
        1 + self.org.len() + 1 + 1 + self.label.len()
    }
}

/// An owned identity. A contract sees the identity.
#[derive(Drop)]
pub struct OwnedIdentity {
    org: Name,
    role: Role,
    label: Bytes,
}

impl Model for OwnedIdentity {
    ghost use Rattle.transaction.specs.declared.identity.Identity.{Identity};

    ghost Value = { Identity };

    ghost view = { λ i. record { org = i.org; role = i.role; label = i.label } };
}

impl OwnedIdentity {
    /// The identity of these parts, which it takes over.
    pub fn new(org: Name, role: Role, label: Bytes) -> OwnedIdentity
        ensures { result ≡ record { org = org; role = role; label = label } }
    {
        OwnedIdentity { org, role, label }
    }

    /// The identity, lent.
    pub fn lend(&self) -> Identity<'_>
        ensures { result ≡ self.now }
    {
        Identity {
            org: self.org.lend(),
            role: self.role,
            label: self.label.lend(),
        }
    }
}
