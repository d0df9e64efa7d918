ghost use Rattle.std.specs.Prelude.{◌≡◌};
ghost use Rattle.task_desk.specs.Status.{is_ready, is_unhanded, is_out, is_done};

/// Where a task is.
#[derive(Clone, Copy, Debug, PartialEq, Eq)]
pub enum Status {
    /// It can be taken, and wasn't handed since it became ready.
    Ready,
    /// It can be taken, and was handed since it became ready.
    Handed,
    /// Somebody works on it.
    Out,
    /// It waits until this smaller task is done.
    Parked(u32),
    Done,
}

impl Status {
    pub(crate) fn is_ready(self) -> bool
        ensures { result ≡ is_ready self }
    {
        matches!(self, Status::Ready | Status::Handed)
    }

    pub(crate) fn is_unhanded(self) -> bool
        ensures { result ≡ is_unhanded self }
    {
        matches!(self, Status::Ready)
    }

    pub(crate) fn is_out(self) -> bool
        ensures { result ≡ is_out self }
    {
        matches!(self, Status::Out)
    }

    pub(crate) fn is_done(self) -> bool
        ensures { result ≡ is_done self }
    {
        matches!(self, Status::Done)
    }
}
