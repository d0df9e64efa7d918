/// What a worker is about to do with a transaction.
#[derive(Clone, Copy, Debug, PartialEq, Eq)]
pub enum Phase {
    /// To pre-check it.
    Intake,
    /// To check its endorsements.
    Endorse,
    /// To check its reads.
    Reads,
}

/// What workers pass before they pre-check a transaction, and before each check, also before one that is tried again.
/// No lock is held then, and this try has looked at nothing yet. It can hold a worker back, and changes no verdict.
pub trait Gate {
    /// Called by a worker that is about to do this with the transaction at `index` of the block. May hold it back;
    /// promises nothing.
    fn at(&self, phase: Phase, index: u32);
}

/// A gate that holds no worker back.
#[derive(Clone, Copy, Debug)]
pub struct Open;

impl Gate for Open {
    fn at(&self, _phase: Phase, _index: u32) {}
}
