ghost use Rattle.std.specs.Prelude.{◌≡◌, ◌<◌, ◌++◌, ◌∷◌, ℕ, List, Some};
ghost use Rattle.std.specs.List.{All};
ghost use Rattle.json_lines.specs.Json.{string_of, value_of};
ghost use Rattle.json_lines.specs.Reading.{read_value};

/// A law, and no work: what is written for bytes is read as these bytes, whatever stands behind it. So nothing leaves its
/// quotation marks.
pub fn values_are_read_back()
    ensures strings { (bytes rest : List ℕ) → All (λ b. b < 256) bytes → read_value (string_of bytes ++ rest) ≡ Some (bytes, rest) }
    ensures values { (bytes rest : List ℕ) → All (λ b. b < 256) bytes → read_value (value_of bytes ++ rest) ≡ Some (bytes, rest) }
{}

/// A law, and no work: no two strings of bytes are written alike.
pub fn values_differ()
    ensures { (a b : List ℕ) → All (λ x. x < 256) a → All (λ x. x < 256) b → value_of a ≡ value_of b → a ≡ b }
{}
