ghost use Rattle.std.specs.Prelude.{◌≡◌, None, Some, is_some, option_map};

use crate::held::Held;
use crate::kept::Kept;
use crate::loose::Loose;
use std::alloc::Global;

/// A ledger that C holds, or none. What C makes of zeros is a handle that holds none. It is C's memory, which C reads and writes by
/// calls alone.
#[repr(C)]
pub struct Handle {
    pub held: Held,
    is_open: bool,
    ghost agrees: { is_some held.value ≡ is_open },
}

impl Handle {
    /// One that holds none, as C has it of zeros.
    pub fn closed(alloc: Global) -> Handle
        ensures { result.held.value ≡ None }
    {
        Handle {
            held: Held::none(alloc),
            is_open: false,
        }
    }

    /// One that holds what the box has.
    fn open(boxed: Box<Kept>) -> Handle
        ensures { result.held.value ≡ Some boxed.value }
    {
        Handle {
            held: Held::of_loose(Loose::of(boxed)),
            is_open: true,
        }
    }

    /// The box of what it holds, if it holds something.
    fn into_box(self) -> Option<Box<Kept>>
        ensures { option_map (λ b. b.value) result ≡ self.held.value }
    {
        let Handle { held, is_open } = self;
        if is_open {
            Some(held.into_loose().into_box())
        } else {
            None
        }
    }

    /// Takes out what it holds. It holds none then. Constant time.
    pub fn take(&mut self, alloc: Global) -> Option<Box<Kept>>
        ensures taken { option_map (λ b. b.value) result ≡ self.old.held.value }
        ensures closed { self.new.held.value ≡ None }
    {
        std::mem::replace(self, Handle::closed(alloc)).into_box()
    }

    /// Has it hold this. What it held is dropped. Constant time where it held none.
    pub fn put(&mut self, boxed: Box<Kept>)
        ensures { self.new.held.value ≡ Some boxed.value }
    {
        *self = Handle::open(boxed);
    }
}

impl Drop for Handle {
    fn drop(self) {
        let Handle { held, is_open } = self;
        if is_open {
            drop(held.into_loose().into_box());
        }
    }
}

fn sent<T: Send>(_value: &T) {}

/// Proved (the function does nothing at run time): a handle may go to another thread with all that it
/// holds, also if other handles share that.
pub fn a_handle_may_be_sent(handle: &Handle) {
    sent(handle);
}
