//! Texts of parts that stand in them many times.

use std::alloc::{AllocError, Global};

/// Parts of a text, each so many times.
pub type Parts = &'static [(&'static str, u32)];

fn push_repeated(text: &mut String, part: &str, count: u32) -> Result<(), AllocError> {
    for _ in 0..count {
        text.push_str(part)?;
    }
    Ok(())
}

/// The parts, joined.
pub fn text_of(alloc: Global, parts: Parts) -> Result<String, AllocError> {
    let mut text = String::new(alloc);
    for &(part, count) in parts {
        push_repeated(&mut text, part, count)?;
    }
    Ok(text)
}
