ghost use Rattle.std.specs.Prelude.{◌≡◌, ◌<◌, ℕ, List, Some};
ghost use Rattle.std.specs.List.{All};
ghost use Rattle.text_lines.specs.Printed.{word_of};
ghost use Rattle.text_lines.specs.Words.{word_bytes};

/// A law, and no work: the word that is printed for bytes spells these bytes. So no two strings of bytes
/// print alike, and `read_word` reads back what a `Word` displays.
pub fn printed_words_are_read_back()
    ensures { (bytes : List ℕ) → All (λ b. b < 256) bytes → word_bytes (word_of bytes) ≡ Some bytes }
{}
