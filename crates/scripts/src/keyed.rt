//! What a namespace has for one key, owned.

use std::marker::Model;
use transaction::{KeyVersion, PolicyWrite, Read, Version, Write};
use values::{Bytes, Key};

/// A key that was read, with its version, or none where it was absent. A contract sees the read.
#[derive(Drop)]
pub struct OwnedRead {
    key: Key,
    version: Option<Version>,
}

impl Model for OwnedRead {
    ghost use Rattle.transaction.specs.declared.transaction.Read.{Read};

    ghost Value = { Read };

    ghost view = { λ r. record { key = r.key; version = r.version } };
}

impl OwnedRead {
    ghost use Rattle.std.specs.Prelude.{◌≡◌};

    /// A read of this key.
    pub fn new(key: Key, version: Option<Version>) -> OwnedRead
        ensures { result ≡ record { key = key; version = version } }
    {
        OwnedRead { key, version }
    }

    /// The read, lent.
    pub fn lend(&self) -> Read<'_>
        ensures { result ≡ self.now }
    {
        Read {
            key: self.key.lend(),
            version: self.version,
        }
    }
}

/// A key with its version, as a range query found it. A contract sees both.
#[derive(Drop)]
pub struct OwnedKeyVersion {
    key: Key,
    version: Version,
}

impl Model for OwnedKeyVersion {
    ghost use Rattle.transaction.specs.declared.transaction.KeyVersion.{KeyVersion};

    ghost Value = { KeyVersion };

    ghost view = { λ r. record { key = r.key; version = r.version } };
}

impl OwnedKeyVersion {
    ghost use Rattle.std.specs.Prelude.{◌≡◌};

    /// A result of a range query.
    pub fn new(key: Key, version: Version) -> OwnedKeyVersion
        ensures { result ≡ record { key = key; version = version } }
    {
        OwnedKeyVersion { key, version }
    }

    /// The result, lent.
    pub fn lend(&self) -> KeyVersion<'_>
        ensures { result ≡ self.now }
    {
        KeyVersion {
            key: self.key.lend(),
            version: self.version,
        }
    }
}

/// A key with its new value, or none where it is deleted. A contract sees the write.
#[derive(Drop)]
pub struct OwnedWrite {
    key: Key,
    value: Option<Bytes>,
}

impl Model for OwnedWrite {
    ghost use Rattle.transaction.specs.declared.transaction.Write.{Write};

    ghost Value = { Write };

    ghost view = { λ w. record { key = w.key; value = w.value } };
}

impl OwnedWrite {
    ghost use Rattle.std.specs.Prelude.{◌≡◌};

    /// A write of this value, or a delete without one.
    pub fn new(key: Key, value: Option<Bytes>) -> OwnedWrite
        ensures { result ≡ record { key = key; value = value } }
    {
        OwnedWrite { key, value }
    }

    /// The write, lent.
    pub fn lend(&self) -> Write<'_>
        ensures { result ≡ self.now }
    {
        let value = match &self.value {
            None => None,
            Some(value) => Some(value.lend()),
        };
        Write {
            key: self.key.lend(),
            value,
        }
    }
}

/// A key with the text of its new policy, or none where its policy is removed. A contract sees the
/// policy write.
#[derive(Drop)]
pub struct OwnedPolicyWrite {
    key: Key,
    policy: Option<Bytes>,
}

impl Model for OwnedPolicyWrite {
    ghost use Rattle.transaction.specs.declared.transaction.PolicyWrite.{PolicyWrite};

    ghost Value = { PolicyWrite };

    ghost view = { λ w. record { key = w.key; policy = w.policy } };
}

impl OwnedPolicyWrite {
    ghost use Rattle.std.specs.Prelude.{◌≡◌};

    /// A write of this policy text, or its removal without one.
    pub fn new(key: Key, policy: Option<Bytes>) -> OwnedPolicyWrite
        ensures { result ≡ record { key = key; policy = policy } }
    {
        OwnedPolicyWrite { key, policy }
    }

    /// The policy write, lent.
    pub fn lend(&self) -> PolicyWrite<'_>
        ensures { result ≡ self.now }
    {
        let policy = match &self.policy {
            None => None,
            Some(text) => Some(text.lend()),
        };
        PolicyWrite {
            key: self.key.lend(),
            policy,
        }
    }
}
