/// What a transaction does to a key.
#[derive(Clone, Copy)]
pub enum Kind {
    /// It writes the key's value.
    Value,
    /// It deletes the key.
    Delete,
    /// It writes the key's policy, and not its value.
    Policy,
}

/// An operation on a key, with the place of its transaction.
#[derive(Clone, Copy)]
pub struct Operation {
    pub tx: u32,
    pub kind: Kind,
}
