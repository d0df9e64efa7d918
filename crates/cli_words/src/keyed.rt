//! What is asked of one key.
ghost use Rattle.std.specs.Prelude.{◌≡◌, ◌⊎◌, ℕ, List, false, Some, Err, IfOk, IfSome};
ghost use Rattle.clap.specs.Words.{found_of, rows_of};
ghost use Rattle.cli_values.specs.declared.word_fault.WordFault.TheVariants.{NotAWord};
ghost use Rattle.cli_words.specs.Items.{Item};
ghost use Rattle.cli_words.specs.Matched.{HoldKeyed};
ghost use Rattle.cli_words.specs.Words.{IsKeyed};
ghost use Rattle.text_lines.specs.Words.{word_bytes};
ghost use Rattle.values.specs.Key.{is_key};
ghost use Rattle.values.specs.Name.{is_name};

use crate::arguments::value_of;
use crate::paths::LedgerPaths;
use clap::ArgMatches;
use cli_values::{WordFault, key_of, name_of};
use std::alloc::{AllocError, Global};
use values::{Key, Name};

/// The words of `get` and `history`: the files, and the key that is asked for.
#[derive(Drop)]
pub struct KeyedQuery<'a> {
    pub paths: LedgerPaths<'a>,
    pub namespace: &'a str,
    pub key: &'a str,
}

/// The words for a key in a namespace.
#[derive(Clone, Copy)]
pub struct KeyWords<'a> {
    pub namespace: &'a str,
    pub key: &'a str,
}

/// A key in its namespace.
#[derive(Drop)]
pub struct NamespacedKey {
    pub namespace: Name,
    pub key: Key,
}

impl<'a> KeyWords<'a> {
    pub(crate) fn from_matches(matches: &ArgMatches<'a>) -> Option<KeyWords<'a>> {
        Some(KeyWords {
            namespace: value_of(matches, "ns")?,
            key: value_of(matches, "key")?,
        })
    }

    /// The key that the words name. An `Err` is a bad name, then a bad key, or want of memory. Linear in the words.
    pub fn asked_key(&self, alloc: Global) -> Result<NamespacedKey, WordFault>
        ensures namespace { IfOk result (λ asked. asked.namespace ≡ self.now.namespace.now) }
        ensures key { IfOk result (λ asked. word_bytes self.now.key.now ≡ Some asked.key) }
        ensures err { result ≡ Err NotAWord → (is_name self.now.namespace.now ≡ false) ⊎ ((bytes : List ℕ) → word_bytes self.now.key.now ≡ Some bytes → is_key bytes ≡ false) }
    {
        let namespace = name_of(alloc, self.namespace)?;
        let key = key_of(alloc, self.key)?;
        Ok(NamespacedKey { namespace, key })
    }
}

impl<'a> KeyedQuery<'a> {
    pub(crate) fn from_matches(
        alloc: Global,
        matches: &ArgMatches<'a>,
    ) -> Result<Option<KeyedQuery<'a>>, AllocError>
        ensures { (items : List Item) → HoldKeyed items (rows_of (found_of matches.now))
            → IfOk result (λ o. IfSome o (IsKeyed items)) }
    {
        let (Some(namespace), Some(key)) = (value_of(matches, "ns"), value_of(matches, "key"))
        else {
            return Ok(None);
        };
        let Some(paths) = LedgerPaths::from_matches(alloc, matches)? else {
            return Ok(None);
        };
        Ok(Some(KeyedQuery {
            paths,
            namespace,
            key,
        }))
    }

    /// The key that the words name. An `Err` is a bad name, then a bad key, or want of memory. Linear in the words.
    pub fn asked_key(&self, alloc: Global) -> Result<NamespacedKey, WordFault>
        ensures namespace { IfOk result (λ asked. asked.namespace ≡ self.now.namespace.now) }
        ensures key { IfOk result (λ asked. word_bytes self.now.key.now ≡ Some asked.key) }
        ensures err { result ≡ Err NotAWord → (is_name self.now.namespace.now ≡ false) ⊎ ((bytes : List ℕ) → word_bytes self.now.key.now ≡ Some bytes → is_key bytes ≡ false) }
    {
        let words = KeyWords {
            namespace: self.namespace,
            key: self.key,
        };
        words.asked_key(alloc)
    }
}
