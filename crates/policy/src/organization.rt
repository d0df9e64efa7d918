ghost use Rattle.std.specs.Prelude.{◌≡◌, IsTrue, IfOk};
ghost use Rattle.values.specs.Name.{is_name};

use std::alloc::{AllocError, Global};
use values::Name;

/// An organization's name where it lies in a text.
#[derive(Clone, Copy)]
pub struct Organization<'a> {
    pub bytes: &'a [u8],
    ghost named: { IsTrue (is_name bytes.now) },
}

impl Organization<'_> {
    /// Copies the bytes once.
    pub fn to_name(self, alloc: Global) -> Result<Name, AllocError>
        ensures { IfOk result (λ name. name ≡ self.entry.bytes.now) }
    {
        Name::from_slice(alloc, self.bytes)
    }
}
