ghost use Rattle.std.specs.Prelude.{◌≡◌};

/// The version of this interface, which grows with each change that a caller can notice.
pub const INTERFACE: u32 = 3;

/// The version of the interface, and the first and last version of the blocks that the library reads.
#[repr(C)]
#[derive(Clone, Copy)]
pub struct Versions {
    pub interface: u32,
    pub first_block: u32,
    pub last_block: u32,
}

/// Tells the versions.
pub fn fabcommit_versions(versions: &mut Versions)
    ensures { versions.new ≡ record { interface = INTERFACE; first_block = 1; last_block = 2 } }
{
    *versions = Versions {
        interface: INTERFACE,
        first_block: 1,
        last_block: 2,
    };
}
