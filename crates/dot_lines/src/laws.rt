ghost use Rattle.dot_lines.specs.Dot.{StaysQuoted, AreEscaped};

/// Proved (the function does nothing at run time): a word is printed escaped, and an escaped text between quotes has
/// the text, and ends where that does.
pub fn quoted_words_stay_quoted()
    ensures words { AreEscaped }
    ensures quoted { StaysQuoted }
{}
