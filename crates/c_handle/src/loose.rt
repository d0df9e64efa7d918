// A box of which nobody sees but the pointer and the allocator that frees it.
ghost use Rattle.std.specs.Prelude.{◌≡◌};
ghost use Rattle.std.specs.Box.Ownership.{box_owns};

use std::alloc::Allocator;
use std::marker::Model;

pub(crate) struct Loose<T, A: Allocator> {
    pub(crate) alloc: A,
    pub(crate) at: *mut T,
    pub(crate) ghost value: { T },
}

impl<T, A: Allocator> Model for Loose<T, A> {
    ghost also_owns = { λ l. box_owns (A.dealloc_token l.alloc) T.row l.at l.value };
}

impl<T: Drop, A: Allocator> Loose<T, A> {
    pub(crate) fn of(boxed: Box<T, A>) -> Loose<T, A>
        ensures { result.value ≡ boxed.value }
    {
        let (at, alloc) = Box::into_raw_with_allocator(boxed);
        Loose { alloc, at }
    }

    pub(crate) fn into_box(self) -> Box<T, A>
        ensures { result.value ≡ self.value }
    {
        let Loose { alloc, at } = self;
        unsafe { Box::from_raw(alloc, at) }
    }
}
