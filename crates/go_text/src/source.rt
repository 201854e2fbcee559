//! A source of bounded length, its slices, lines and columns.
ghost use Rattle.std.specs.Prelude.{◌≡◌, ◌≤◌, ◌<◌, ◌⊎◌, ◌↔◌, length, IfOk, IfErr, IsErrOf, slice_range, IsUtf8, IsCharBoundary, string_len, vec_len};

use crate::fault::Fault;
use crate::place::{Position, Span, position_following};

/// The maximum length of a source, in bytes.
pub const MAX_LENGTH: usize = 1_048_576;

/// A source in UTF-8 of at most `MAX_LENGTH` bytes.
#[derive(Debug, Drop)]
pub struct Source {
    text: String,
    ghost short: { string_len text ≤ 1048576 },
}

impl Source {
    ghost use Rattle.std.specs.Prelude.{take};
    ghost use Rattle.go_text.specs.Lines.{position_after};
    ghost use Rattle.go_text.specs.Source.{bytes_of};

    /// The source with these bytes.
    pub fn new(bytes: Vec<u8>) -> Result<Source, Fault>
        ensures text { IfOk result (λ s. bytes_of s ≡ bytes.items) }
        ensures too_long { IsErrOf result Fault.TooLong ↔ (1048576 < vec_len bytes) }
        ensures not_utf8 { IsErrOf result Fault.NotUtf8 ↔ ((vec_len bytes ≤ 1048576) × ¬ (IsUtf8 bytes.items)) }
        ensures only { IfErr result (λ e. (e ≡ Fault.TooLong) ⊎ (e ≡ Fault.NotUtf8)) }
    {
        if bytes.len() > MAX_LENGTH {
            return Err(Fault::TooLong);
        }
        match String::from_utf8(bytes) {
            Ok(text) => Ok(Source { text }),
            Err(_) => Err(Fault::NotUtf8),
        }
    }

    /// The source as a string.
    pub fn as_str(&self) -> &str
        ensures bytes { result.now ≡ bytes_of self.now }
        ensures short { length result.now ≤ 1048576 }
        ensures utf8 { IsUtf8 result.now }
    {
        self.text.as_str()
    }

    /// The source's bytes.
    pub fn as_bytes(&self) -> &[u8]
        ensures bytes { result.now ≡ bytes_of self.now }
        ensures short { length result.now ≤ 1048576 }
    {
        self.text.as_bytes()
    }

    /// The part of the source in a span.
    pub fn slice(&self, span: Span) -> &str
        requires order { span.from ≤ span.to }
        requires end { span.to ≤ length (bytes_of self.now) }
        requires boundaries { IsCharBoundary (bytes_of self.now) span.from × IsCharBoundary (bytes_of self.now) span.to }
        ensures { result.now ≡ slice_range (bytes_of self.now) span.from span.to }
    {
        &self.text.as_str()[span.from as usize..span.to as usize]
    }

    /// The line and the column of a byte offset: a newline ends its line. An offset past the end counts as the end.
    pub fn line_column(&self, offset: u32) -> Position
        ensures { result ≡ position_after 1 1 (take offset (bytes_of self.now)) }
    {
        let bytes = self.text.as_bytes();
        let end = bytes.len().min(offset as usize);
        position_following(&bytes[..end])
    }
}
