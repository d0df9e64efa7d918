//! The lines of a text that say something, their parts, and words, which spell any bytes.
#![tactic(auto)]

mod laws;
mod lines;
mod parts;
mod printed;
mod utf8;
mod words;

pub use laws::printed_words_are_read_back;
pub use lines::{Statement, Statements};
pub use parts::{first_part, trimmed};
pub use printed::Word;
pub use utf8::text_of;
pub use words::read_word;
