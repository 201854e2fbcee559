//! Whether a run is as expected.

ghost use Rattle.std.specs.Prelude.{IfOk, IsTrue};
ghost use Rattle.expected_output.specs.Meeting.{HaveSameLines, IsExpected, Meets};

use crate::expectation::{Expectation, ExpectedOutput};
use crate::lines::{are_same_lines, sorted_lines};
use go_text::Memory;
use std::alloc::Global;
use word::end::End;

impl Expectation {
    /// Whether a run that ended so, and printed this in all, is as expected.
    ///
    /// Errors: out of memory.
    pub fn is_met(&self, alloc: Global, end: End, output: &[u8]) -> Result<bool, Memory>
        ensures yes { IfOk result (λ met. IsTrue met → Meets self.now end output.now) }
        ensures no { IfOk result (λ met. Meets self.now end output.now → IsTrue met) }
    {
        if end != self.end {
            return Ok(false);
        }
        match &self.output {
            None => Ok(true),
            Some(wanted) => wanted.is_met(alloc, output),
        }
    }
}

impl ExpectedOutput {
    /// Whether this output is the expected one.
    fn is_met(&self, alloc: Global, output: &[u8]) -> Result<bool, Memory>
        ensures yes { IfOk result (λ met. IsTrue met → IsExpected self.now output.now) }
        ensures no { IfOk result (λ met. IsExpected self.now output.now → IsTrue met) }
    {
        let Ok(output) = str::from_utf8(output) else {
            return Ok(false);
        };
        let (printed, wanted) = (output.trim(), self.text.as_str().trim());
        if self.is_unordered {
            have_same_lines(alloc, wanted, printed)
        } else {
            Ok(printed == wanted)
        }
    }
}

/// Whether two texts have the same lines, each as often.
///
/// Errors: out of memory.
pub fn have_same_lines(alloc: Global, one: &str, other: &str) -> Result<bool, Memory>
    ensures yes { IfOk result (λ same. IsTrue same → HaveSameLines one.now other.now) }
    ensures no { IfOk result (λ same. HaveSameLines one.now other.now → IsTrue same) }
{
    let one = sorted_lines(alloc, one)?;
    let other = sorted_lines(alloc, other)?;
    Ok(are_same_lines(one.as_slice(), other.as_slice()))
}
