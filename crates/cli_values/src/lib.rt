//! The values that words of the command line encode, the word that a line has for a value, and the forms of lines.
//! Words are those of `text_lines`.
#![tactic(auto)]

mod format;
mod laws;
mod value_word;
mod word_fault;
mod words;

pub use format::Format;
pub use laws::printed_values_are_read_back;
pub use value_word::ValueWord;
pub use word_fault::WordFault;
pub use words::{bytes_of, id_of, key_of, name_of};
