//! Text that is appended to other text, in space that was reserved before.

ghost use Rattle.std.specs.Prelude.{◌≡◌, length};
ghost use Rattle.tracer.specs.Room.{AppendsWithin, HasRoom};

use itoa::{Buffer, Integer};

/// Appends this text.
pub(crate) fn push_text(lines: &mut Vec<u8>, text: &str)
    requires { HasRoom lines.old (length text.now) }
    ensures { AppendsWithin lines.old lines.new (length text.now) text.now }
{
    if lines.extend_from_slice(text.as_bytes()).is_err() {
        unreachable!()
    }
}

/// Appends this number.
pub(crate) fn push_number<I: Integer>(lines: &mut Vec<u8>, number: I)
    requires { HasRoom lines.old I.MAX_STR_LEN }
    ensures { AppendsWithin lines.old lines.new I.MAX_STR_LEN (I.text number) }
{
    let mut buffer = Buffer::new();
    push_text(lines, buffer.format(number));
}
