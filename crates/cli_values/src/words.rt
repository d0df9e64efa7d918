//! What options give by words and names.
ghost use Rattle.std.specs.Prelude.{◌≡◌, ◌==◌, ℕ, List, length, Some, None, Err, false, IfOk};
ghost use Rattle.transaction.specs.Limits.{id_bytes};
ghost use Rattle.values.specs.Key.{is_key};
ghost use Rattle.values.specs.Name.{is_name};
ghost use Rattle.text_lines.specs.Words.{word_bytes};
ghost use Rattle.cli_values.specs.declared.word_fault.WordFault.TheVariants.{NotAWord};

use crate::word_fault::WordFault;
use std::alloc::Global;
use text_lines::read_word;
use transaction::{ID_BYTES, TxId};
use values::{Bytes, Key, Name, is_key, is_name};

/// The bytes that a word encodes. An `Err` is a text that is no word, or out of memory. Linear in the word, whose
/// length is the most memory that it needs.
pub fn bytes_of(alloc: Global, word: &str) -> Result<Bytes, WordFault>
    ensures ok { IfOk result (λ bytes. word_bytes word.now ≡ Some bytes) }
    ensures err { result ≡ Err NotAWord → word_bytes word.now ≡ None }
{
    match read_word(alloc, word.as_bytes())? {
        Some(bytes) => Ok(bytes),
        None => Err(WordFault::NotAWord),
    }
}

/// The key that a word encodes, of 1 to 1,024 bytes. An `Err` is a word of other bytes, or one of `bytes_of`. Linear in
/// the word, in time and memory.
pub fn key_of(alloc: Global, word: &str) -> Result<Key, WordFault>
    ensures ok { IfOk result (λ key. word_bytes word.now ≡ Some key) }
    ensures err { result ≡ Err NotAWord → (bytes : List ℕ) → word_bytes word.now ≡ Some bytes → is_key bytes ≡ false }
{
    let bytes = bytes_of(alloc, word)?;
    if !is_key(bytes.as_slice()) {
        return Err(WordFault::NotAWord);
    }
    Ok(Key::from_slice(alloc, bytes.as_slice())?)
}

/// The transaction id that a word encodes, of 64 bytes. An `Err` is a word of other bytes, or one of `bytes_of`. Linear
/// in the word, in time and memory.
pub fn id_of(alloc: Global, word: &str) -> Result<TxId, WordFault>
    ensures ok { IfOk result (λ id. word_bytes word.now ≡ Some id) }
    ensures err { result ≡ Err NotAWord → (bytes : List ℕ) → word_bytes word.now ≡ Some bytes → (length bytes == id_bytes) ≡ false }
{
    let bytes = bytes_of(alloc, word)?;
    let bytes = bytes.as_slice();
    if bytes.len() != ID_BYTES {
        return Err(WordFault::NotAWord);
    }
    let mut id = [0; ID_BYTES];
    id.copy_from_slice(bytes);
    Ok(id)
}

/// The name that an option gives. An `Err` is a text that is no name, or out of memory. Linear in the text, in time and
/// memory.
pub fn name_of(alloc: Global, text: &str) -> Result<Name, WordFault>
    ensures ok { IfOk result (λ name. name ≡ text.now) }
    ensures err { result ≡ Err NotAWord → is_name text.now ≡ false }
{
    if !is_name(text.as_bytes()) {
        return Err(WordFault::NotAWord);
    }
    Ok(Name::from_slice(alloc, text.as_bytes())?)
}
