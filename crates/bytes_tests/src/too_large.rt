//! What keeps a body, what is signed of it, and the whole from being written.

use transaction::EncodeFault;

pub type Faults = [Option<EncodeFault>; 3];

/// The first that is too large; so is what contains it.
#[derive(Clone, Copy)]
pub enum TooLarge {
    Nothing,
    Body,
    Signed,
    Whole,
}

impl TooLarge {
    /// What is returned when the body, what is signed of it and the whole are written.
    pub fn faults(self) -> Faults {
        let fault = Some(EncodeFault::TooLarge);
        match self {
            TooLarge::Nothing => [None, None, None],
            TooLarge::Body => [fault, fault, fault],
            TooLarge::Signed => [None, fault, fault],
            TooLarge::Whole => [None, None, fault],
        }
    }
}
