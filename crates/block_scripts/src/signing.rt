use key_book::KeyBook;
use values::Name;

/// The channel on which a script is drafted, and by whose keys.
#[derive(Clone, Copy)]
pub(crate) struct Signing<'a> {
    pub(crate) channel: &'a Name,
    pub(crate) keys: &'a KeyBook,
}
