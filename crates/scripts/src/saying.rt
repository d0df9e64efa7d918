//! What one line says, whatever stands before it.

use crate::draft::Content;
use crate::keyed::{OwnedKeyVersion, OwnedPolicyWrite, OwnedRead, OwnedWrite};
use crate::namespace::OwnedRange;
use transaction::OwnedIdentity;
use values::{Bytes, Name};

/// What a line adds to the namespace that is open.
#[derive(Drop)]
pub(crate) enum Entry {
    Read(OwnedRead),
    Range(OwnedRange),
    /// A result of the last range.
    Found(OwnedKeyVersion),
    Write(OwnedWrite),
    Policy(OwnedPolicyWrite),
}

/// A line, by its form.
#[derive(Drop)]
pub(crate) enum Saying {
    /// A transaction or an update begins: creator, nonce, chaincode, and what it has beside them.
    Begins(OwnedIdentity, Bytes, Name, Content),
    /// The bytes of a whole transaction.
    Raw(Bytes),
    /// A namespace begins.
    Namespace(Name),
    Adds(Entry),
    Endorse(OwnedIdentity),
}
