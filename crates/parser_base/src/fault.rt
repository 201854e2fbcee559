//! Why nothing is read.

ghost use Rattle.std.specs.Prelude.{◌≡◌};
ghost use Rattle.parser_base.specs.declared.fault.ParseFault.TheVariants as faults;
ghost use Rattle.parser_base.specs.Faults.{fault_of, many};

use go_text::{Fault, LimitKind, Place, Span};
use std::alloc::{AllocError, AllocFailed};

/// Why nothing is read, with the token that shows it, or the end of the source. All that reads passes it on, so it is small:
/// `Fault`, which a source file is refused with, is made of it once nothing more is tried.
#[derive(Clone, Copy)]
pub enum ParseFault {
    /// No tree goes on so.
    Syntax(Span),
    /// No tree of at most `MAX_HEIGHT` levels does.
    TooDeep(Span),
    /// No tree does whose lists have at most `MAX_ENTRIES` entries.
    TooManyEntries(Span),
    /// No tree does whose selects have at most `MAX_CLAUSES` clauses.
    TooManyClauses(Span),
    /// A request for memory was refused.
    Memory,
}

impl From<AllocError> for ParseFault {
    ghost from_gives = { λ _ e. e ≡ faults.Memory };

    fn from(_error: AllocError) -> ParseFault {
        ParseFault::Memory
    }
}

impl<T: Drop> From<AllocFailed<T>> for ParseFault {
    ghost from_gives = { λ _ e. e ≡ faults.Memory };

    fn from(_error: AllocFailed<T>) -> ParseFault {
        ParseFault::Memory
    }
}

impl From<ParseFault> for Fault {
    ghost from_gives = { λ parsed fault. fault ≡ fault_of parsed };

    fn from(fault: ParseFault) -> Fault {
        match fault {
            ParseFault::Syntax(span) => Fault::Syntax(Place::from(span)),
            ParseFault::TooDeep(span) => Fault::TooDeep(Place::from(span)),
            ParseFault::TooManyEntries(span) => too_many(LimitKind::ListEntries, span),
            ParseFault::TooManyClauses(span) => too_many(LimitKind::SelectClauses, span),
            ParseFault::Memory => Fault::Memory,
        }
    }
}

/// The fault of a list that is too long.
fn too_many(kind: LimitKind, span: Span) -> Fault
    ensures { result ≡ many kind span }
{
    Fault::Limit {
        kind,
        node: None,
        place: Place::from(span),
    }
}
