//! The lines that report a test.

use crate::testing::{Tested, Verdict};
use diagnostic_words::words::Words;
use go_text::Memory;
use std::alloc::Global;
use std::time::Duration;

impl Tested {
    /// The lines that report the test: `ok    FILE`, or `FAIL  FILE` and the reasons, where FILE is `path`. If `took` is given, the
    /// seconds that the test took follow FILE.
    ///
    /// Errors: out of memory.
    pub fn report(
        &self,
        alloc: Global,
        path: &str,
        took: Option<Duration>,
    ) -> Result<Vec<u8>, Memory> {
        let mut said = Words::new(alloc);
        said.text(match self.verdict {
            Verdict::Passed(_) => "ok    ",
            Verdict::Failed(_) | Verdict::Doubted(_) | Verdict::Untested => "FAIL  ",
        });
        said.text(path);
        if let Some(took) = took {
            push_seconds(&mut said, took);
        }
        if let Some(searched) = self.searched {
            said.text("    ");
            searched.push(&mut said);
        }
        if let Verdict::Passed(expectation) = &self.verdict {
            said.text(if expectation.is_said {
                ""
            } else {
                "    [no output comment]"
            });
        }
        if self.is_updated {
            said.text("    [updated]");
        }
        let mut before = "    ";
        for reason in self.reasons.iter() {
            said.text(before);
            said.text(reason.as_str());
            before = "\n  ";
        }
        said.text("\n");
        Ok(said.into_bytes()?)
    }
}

/// Appends how many seconds a test took, with two decimals.
fn push_seconds(said: &mut Words, took: Duration) {
    let hundredths = took.subsec_millis() / 10;
    said.text("    ");
    said.number(i128::from(took.as_secs()));
    said.text(if hundredths < 10 { ".0" } else { "." });
    said.number(i128::from(hundredths));
    said.text("s");
}
