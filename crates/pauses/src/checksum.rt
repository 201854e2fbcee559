//! Checksums of programs.

ghost use Rattle.std.specs.Prelude.{◌≡◌, ◌↔◌, IsTrue};
ghost use Rattle.sha2.specs.Sha256.{sha256};

use sha2::{Digest, Sha256};

/// The SHA-256 checksum of a program's source.
#[derive(Clone, Copy)]
pub struct Checksum(pub [u8; 32]);

impl Checksum {
    /// The checksum of these bytes.
    pub fn of(source: &[u8]) -> Checksum
        ensures { result.0 ≡ sha256 source.now }
    {
        Checksum(Sha256::digest(source))
    }

    /// Whether it is the checksum of these bytes.
    pub fn is_of(&self, source: &[u8]) -> bool
        ensures { IsTrue result ↔ (self.now.0 ≡ sha256 source.now) }
    {
        let digest = Sha256::digest(source);
        self.0.as_slice() == digest.as_slice()
    }
}
