//! Laws of the definitions: what they say of a text in UTF-8, in terms of its characters.

ghost use Rattle.std.specs.Prelude.{◌≡◌, ◌++◌, ◌∷◌, ◌&&◌, ℕ, List, Some, true, encode_utf8};
ghost use Rattle.std.specs.Char.{IsScalar};
ghost use Rattle.std.specs.List.{list_all};
ghost use Rattle.std.specs.Str.{all_scalars, encode_utf8_all};
ghost use Rattle.scanner.specs.Letters.{front_char, is_letter, is_letter_or_digit, is_name};

/// What a text begins with is its first character.
pub fn first_character()
    ensures { (c : ℕ) → (rest : List ℕ) → IsScalar c → front_char (encode_utf8 c ++ rest) ≡ Some c }
{}

/// A name is a letter followed by letters and digits.
pub fn characters_of_names()
    ensures { (c : ℕ) → (cs : List ℕ) → all_scalars (c ∷ cs) ≡ true → is_name (encode_utf8_all (c ∷ cs)) ≡ (is_letter c && list_all is_letter_or_digit cs) }
{}
