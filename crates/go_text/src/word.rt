//! Words that are spelt by bytes.

ghost use Rattle.std.specs.Prelude.{◌≡◌, bytes_eq};

/// Whether the bytes spell this word.
pub fn is_word(bytes: &[u8], word: &[u8]) -> bool
    ensures { result ≡ bytes_eq bytes.now word.now }
{
    bytes == word
}
