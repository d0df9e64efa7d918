ghost use Rattle.std.specs.Prelude.{◌≡◌, ◌<◌, ℕ, List, Some};
ghost use Rattle.std.specs.List.{All};
ghost use Rattle.text_lines.specs.Words.{word_bytes};
ghost use Rattle.cli_values.specs.Printed.{value_word_of};

use text_lines::printed_words_are_read_back;

/// Proved (the function does nothing at run time): the word that a history has for a value encodes this value. So no
/// two values print alike there, and none like a deletion.
pub fn printed_values_are_read_back()
    ensures { (bytes : List ℕ) → All (λ b. b < 256) bytes → word_bytes (value_word_of bytes) ≡ Some bytes }
{
    printed_words_are_read_back();
}
