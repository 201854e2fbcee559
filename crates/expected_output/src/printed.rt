//! What a run prints.

ghost use Rattle.std.specs.Prelude.{◌≡◌, ◌≤◌, [], IsTrue, Some, length};
ghost use Rattle.expected_output.specs.declared.printed.TheConstants.{MOST_BYTES};

use std::alloc::Global;
use word::{Write, WriteFault};

/// The most bytes of an output that is compared.
pub const MOST_BYTES: usize = 1 << 24;

/// Takes what a run prints, up to `MOST_BYTES` bytes.
#[derive(Drop)]
pub struct Printed {
    bytes: Vec<u8>,
    is_full: bool,
    failed: bool,
    ghost full: { IsTrue is_full → MOST_BYTES ≤ length bytes.items },
}

impl Printed {
    ghost use Rattle.expected_output.specs.Printing.{printed_in};

    /// Nothing yet.
    pub fn new(alloc: Global) -> Printed
        ensures { printed_in result ≡ [] }
    {
        Printed {
            bytes: Vec::new(alloc),
            is_full: false,
            failed: false,
        }
    }

    /// Whether it ever refused bytes since it had taken as many as it takes.
    pub fn is_full(&self) -> bool
        ensures { IsTrue result → MOST_BYTES ≤ length (printed_in self.now) }
    {
        self.is_full
    }

    /// The bytes that were printed.
    pub fn into_bytes(self) -> Vec<u8>
        ensures { result.items ≡ printed_in self }
    {
        self.bytes
    }
}

impl Write for Printed {
    ghost use Rattle.expected_output.specs.Printing.{failed_of, printed_in};

    ghost contents = { λ printed. Some (printed_in printed) };

    ghost has_failed = { λ printed. failed_of printed };

    fn write(&mut self, piece: &[u8]) -> Result<usize, WriteFault> {
        let taken = piece.len().min(MOST_BYTES.saturating_sub(self.bytes.len()));
        if taken == 0 && !piece.is_empty() {
            self.is_full = true;
            self.failed = true;
            return Err(WriteFault);
        }
        match self.bytes.extend_from_slice(&piece[..taken]) {
            Ok(()) => Ok(taken),
            Err(_) => {
                self.failed = true;
                Err(WriteFault)
            }
        }
    }
}
