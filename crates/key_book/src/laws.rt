ghost use Rattle.std.specs.Prelude.{◌≡◌, ◌*◌};
ghost use Rattle.key_book.specs.Entry.{max_key_bytes};
ghost use Rattle.key_book.specs.BookText.{max_label_bytes, max_digits};

use crate::hmac::BLOCK;
use crate::identity_text::MAX_LABEL;
use crate::keyed::MAX_DIGITS;

/// A law, and no work: the limits of this code are those that the definitions name, and a key of the most digits has
/// the most bytes, as many as a block of the hash.
pub fn limits_are_the_definitions()
    ensures label { MAX_LABEL ≡ max_label_bytes }
    ensures digits { MAX_DIGITS ≡ max_digits }
    ensures key { max_digits ≡ 2 * max_key_bytes }
    ensures block { BLOCK ≡ max_key_bytes }
{}
