ghost use Rattle.std.specs.Prelude.{◌≡◌, Option, None, Some, is_some, true};
ghost use Rattle.c_handle.specs.declared.kept.Kept.{Kept};
ghost use Rattle.c_handle.specs.Owned.{owned, owned_coded};

use crate::kept::Kept;
use crate::loose::Loose;
use std::alloc::Global;
use std::marker::Model;

/// A box as a pointer whose type says nothing of what lies there, or no box. C may keep one, and looks into none.
///
/// Dropped as it is it forgets its box: `Handle` drops it.
#[repr(C)]
#[derive(Drop)]
pub struct Held {
    at: *mut u8,
    alloc: Global,
    pub ghost value: { Option Kept } by { owned_coded },
}

impl Model for Held {
    ghost also_owns = { λ h. owned h.alloc h.at h.value };
}

impl Held {
    pub(crate) fn none(alloc: Global) -> Held
        ensures { result.value ≡ None }
    {
        Held {
            at: std::ptr::null_mut(),
            alloc,
        }
    }

    pub(crate) fn of_loose(loose: Loose<Kept, Global>) -> Held
        ensures { result.value ≡ Some loose.value }
    {
        let Loose { alloc, at } = loose;
        Held {
            at: at as *mut u8,
            alloc,
        }
    }

    pub(crate) fn into_loose(self) -> Loose<Kept, Global>
        requires { is_some self.value ≡ true }
        ensures { self.value ≡ Some result.value }
    {
        let Held { at, alloc } = self;
        Loose {
            alloc,
            at: at as *mut Kept,
        }
    }
}

// A handle may go to another thread with all that it holds.
unsafe impl Send for Held {}
