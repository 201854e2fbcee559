//! Locations in a source.

ghost use Rattle.std.specs.Prelude.{◌≡◌, ◌≤◌, length};
ghost use Rattle.go_text.specs.Lines.{position_after};

/// The bytes of a source from `from` to below `to`.
#[derive(Clone, Copy, Debug, PartialEq, Eq)]
pub struct Span {
    pub from: u32,
    pub to: u32,
}

/// A line, counted from 1, and a column, counted from 1 in bytes.
#[derive(Clone, Copy, Debug, PartialEq, Eq)]
pub struct Position {
    pub line: u32,
    pub column: u32,
}

/// Where a fault lies. The calls that have the source add the position of the span's first byte.
#[derive(Clone, Copy, Debug, PartialEq, Eq)]
pub struct Place {
    pub span: Span,
    pub position: Option<Position>,
}

impl From<Span> for Place {
    ghost use Rattle.std.specs.Prelude.{◌≡◌, None};
    ghost use Rattle.go_text.specs.declared.place.Place.{Place as OnePlace};

    ghost from_gives = { λ span place. place ≡ record { span = span; position = None } };

    fn from(span: Span) -> Place {
        Place {
            span,
            position: None,
        }
    }
}

/// The position after these bytes, which begin a source.
pub(crate) fn position_following(bytes: &[u8]) -> Position
    requires { length bytes.now ≤ 1048576 }
    ensures { result ≡ position_after 1 1 bytes.now }
{
    let mut line = 1;
    let mut column = 1;
    for byte in bytes {
        if *byte == b'\n' {
            line += 1;
            column = 1;
        } else {
            column += 1;
        }
    }
    Position { line, column }
}
