ghost use Rattle.std.specs.Prelude.{◌≡◌, ℕ, List};

use crate::transaction::{KeyVersion, NsSet, PolicyWrite, Read, Write};

/// What has a name or a key, by which a list tells its items apart.
pub trait Labelled {
    ghost label: { Self → List ℕ };

    /// The bytes of its name or its key.
    fn label(&self) -> &[u8]
        ensures { result.now ≡ label self.now };
}

impl Labelled for NsSet<'_> {
    ghost label = { λ set. set.name };

    fn label(&self) -> &[u8] {
        self.name.as_slice()
    }
}

impl Labelled for Read<'_> {
    ghost label = { λ read. read.key };

    fn label(&self) -> &[u8] {
        self.key.as_slice()
    }
}

impl Labelled for KeyVersion<'_> {
    ghost label = { λ found. found.key };

    fn label(&self) -> &[u8] {
        self.key.as_slice()
    }
}

impl Labelled for Write<'_> {
    ghost label = { λ write. write.key };

    fn label(&self) -> &[u8] {
        self.key.as_slice()
    }
}

impl Labelled for PolicyWrite<'_> {
    ghost label = { λ write. write.key };

    fn label(&self) -> &[u8] {
        self.key.as_slice()
    }
}

impl Labelled for &[u8] {
    ghost label = { λ bytes. bytes.now };

    fn label(&self) -> &[u8] {
        self
    }
}
