use crate::text::Text;
use std::error::Error;

/// Why a test can't go on, or isn't as wanted.
#[derive(Clone, Copy, Debug)]
pub enum Failed {
    /// Something isn't as wanted.
    Unlike,
    /// This couldn't be had.
    Missing(&'static str),
    /// What is tested answered the error with this text.
    Fault(Text),
}

/// Keeps the error's text where it has at most 64 bytes. It takes no memory.
impl<E: Error> From<E> for Failed {
    fn from(error: E) -> Failed {
        Failed::Fault(Text::of(&error))
    }
}

impl Failed {
    /// Whether memory was wanting, by the words that each crate and the standard library have for it.
    pub fn is_memory(&self) -> bool {
        match self {
            Failed::Fault(text) => {
                text.as_str().starts_with("out of memory")
                    || text.as_str() == "memory allocation failed"
            }
            _ => false,
        }
    }
}

/// Answers `Unlike` where `is_so` is false.
pub fn check(is_so: bool) -> Result<(), Failed> {
    if is_so { Ok(()) } else { Err(Failed::Unlike) }
}

/// Tells `Unlike` as false; other errors stay errors.
pub fn is_alike(checked: Result<(), Failed>) -> Result<bool, Failed> {
    match checked {
        Ok(()) => Ok(true),
        Err(Failed::Unlike) => Ok(false),
        Err(other) => Err(other),
    }
}
