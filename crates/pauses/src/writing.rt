//! A plan to its file.

ghost use Rattle.std.specs.Prelude.{◌≡◌, ◌++◌, codes, decimal, IfOk, OnOk};
ghost use Rattle.std.specs.List.{flat_map};
ghost use Rattle.hex.specs.Hex.{encode_lower};
ghost use Rattle.pauses.specs.Files.{IsPlan, Reads, change_text, more_text, pause_text, plan_text, read_bytes, way_text};
ghost use Rattle.pauses.specs.Headers.{escape, escaped, headed_text, header_of, header_text};
ghost use Rattle.pauses.specs.Plans.{pause_of, pauses_of};

use crate::checksum::Checksum;
use crate::header::PlanHeader;
use crate::plan::{Change, Pause, Plan};
use go_text::Memory;
use itoa::Buffer;
use std::alloc::{AllocError, Global};

impl Plan {
    /// The file of the plan, which `read` reads again if the plan `is_valid`.
    ///
    /// Errors: `Memory`.
    pub fn bytes(&self, alloc: Global) -> Result<Vec<u8>, Memory>
        ensures { IfOk result (λ v. v.items ≡ plan_text (pauses_of self.now.pauses.items)) }
    {
        let mut text = Vec::from_slice(alloc, b"kendo pauses 1\n")?;
        push_pauses(&mut text, self.pauses.as_slice())?;
        Ok(text)
    }

    /// The file of the plan with this header, which `read` reads again if the plan `is_valid`.
    ///
    /// Errors: `Memory`.
    pub fn bytes_with(&self, alloc: Global, header: &PlanHeader) -> Result<Vec<u8>, Memory>
        ensures text { IfOk result (λ v. v.items ≡ headed_text (header_of header.now) (pauses_of self.now.pauses.items)) }
        ensures again { IfOk result (λ v. IsPlan (pauses_of self.now.pauses.items) → read_bytes v.items ≡ Reads (pauses_of self.now.pauses.items)) }
    {
        let mut text = Vec::from_slice(alloc, b"kendo pauses 1\n")?;
        push_header(&mut text, header)?;
        push_pauses(&mut text, self.pauses.as_slice())?;
        Ok(text)
    }
}

/// Appends the two lines of a header.
fn push_header(text: &mut Vec<u8>, header: &PlanHeader) -> Result<(), AllocError>
    ensures { OnOk result (text.new.items ≡ text.old.items ++ header_text (header_of header.now)) }
{
    text.extend_from_slice(b"# program: ")?;
    push_escaped(text, header.path.as_slice())?;
    push_checksum(text, &header.checksum)?;
    text.extend_from_slice(b"\n# end: ")?;
    push_escaped(text, header.end.as_slice())?;
    text.extend_from_slice(b"\n")
}

/// Appends a checksum in hexadecimal digits, after its name.
fn push_checksum(text: &mut Vec<u8>, checksum: &Checksum) -> Result<(), AllocError>
    ensures { OnOk result (text.new.items ≡ text.old.items ++ codes " sha256 " ++ encode_lower checksum.now.0) }
{
    let mut digits = [0; 64];
    let _ = hex::encode_to_slice(checksum.0, &mut digits);
    text.extend_from_slice(b" sha256 ")?;
    text.extend_from_slice(digits.as_slice())
}

/// Appends bytes so that they stay on the line.
fn push_escaped(text: &mut Vec<u8>, bytes: &[u8]) -> Result<(), AllocError>
    ensures { OnOk result (text.new.items ≡ text.old.items ++ escaped bytes.now) }
{
    for byte in bytes {
        push_escape(text, *byte)?;
    }
    Ok(())
}

/// Appends a byte so that it stays on the line.
fn push_escape(text: &mut Vec<u8>, byte: u8) -> Result<(), AllocError>
    ensures { OnOk result (text.new.items ≡ text.old.items ++ escape byte) }
{
    match byte {
        b'\n' => text.extend_from_slice(b"\\n"),
        b'\\' => text.extend_from_slice(b"\\\\"),
        _ => text.extend_from_slice(&[byte]),
    }
}

/// Appends pauses, each on a line.
fn push_pauses(text: &mut Vec<u8>, pauses: &[Pause]) -> Result<(), AllocError>
    ensures { OnOk result (text.new.items ≡ text.old.items ++ flat_map pause_text (pauses_of pauses.now)) }
{
    for pause in pauses {
        push_pause(text, pause)?;
    }
    Ok(())
}

/// Appends a pause with its newline.
fn push_pause(text: &mut Vec<u8>, pause: &Pause) -> Result<(), AllocError>
    ensures { OnOk result (text.new.items ≡ text.old.items ++ pause_text (pause_of pause.now)) }
{
    push_way(text, pause.way.as_slice())?;
    text.extend_from_slice(b" ")?;
    push_number(text, pause.request)?;
    push_change(text, pause.change)?;
    text.extend_from_slice(b"\n")
}

/// Appends a way, as `1.2`.
fn push_way(text: &mut Vec<u8>, way: &[u64]) -> Result<(), AllocError>
    ensures { OnOk result (text.new.items ≡ text.old.items ++ way_text way.now) }
{
    let Some((first, others)) = way.split_first() else {
        return Ok(());
    };
    push_number(text, *first)?;
    push_more(text, others)
}

/// Appends numbers, each after a dot.
fn push_more(text: &mut Vec<u8>, numbers: &[u64]) -> Result<(), AllocError>
    ensures { OnOk result (text.new.items ≡ text.old.items ++ more_text numbers.now) }
{
    for number in numbers {
        text.extend_from_slice(b".")?;
        push_number(text, *number)?;
    }
    Ok(())
}

/// Appends what is changed, after a space.
fn push_change(text: &mut Vec<u8>, change: Change) -> Result<(), AllocError>
    ensures { OnOk result (text.new.items ≡ text.old.items ++ change_text change) }
{
    match change {
        Change::Wait(ticks) => {
            text.extend_from_slice(b" wait ")?;
            push_number(text, ticks)
        }
        Change::Clause(clause) => {
            text.extend_from_slice(b" clause ")?;
            push_number(text, clause)
        }
    }
}

/// Appends a number in decimal digits.
fn push_number(text: &mut Vec<u8>, number: u64) -> Result<(), AllocError>
    ensures { OnOk result (text.new.items ≡ text.old.items ++ decimal number) }
{
    let mut buffer = Buffer::new();
    text.extend_from_slice(buffer.format(number).as_bytes())
}
