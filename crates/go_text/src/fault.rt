//! Why a source or a run is refused.
ghost use Rattle.std.specs.Prelude.{◌≡◌};
ghost use Rattle.go_text.specs.Titles.{fault_title};
ghost use Rattle.go_text.specs.declared.fault.Fault.TheVariants as fault;

use crate::place::Place;
use crate::rule::{LimitKind, Rule};
use std::alloc::{AllocError, AllocFailed};
use thiserror::Error;

/// A request for memory was refused.
#[derive(Clone, Copy, Debug, PartialEq, Eq, Error)]
#[error("13 Memory")]
pub struct Memory;

/// A piece of the output of another program or limit, or one that is not the next.
#[derive(Clone, Copy, Debug, PartialEq, Eq, Error)]
#[error("12 NotYours")]
pub struct NotYours;

/// All errors, in the order of their numbers, 1 to 16.
#[derive(Clone, Copy, Debug, PartialEq, Eq, Error)]
pub enum Fault {
    /// The source is longer than 1,048,576 bytes.
    #[error("1 TooLong")]
    TooLong,
    /// The source is not UTF-8.
    #[error("2 NotUtf8")]
    NotUtf8,
    /// No token begins with this character, or a NUL or a byte-order mark is in the string or comment that begins
    /// here.
    #[error("3 BadCharacter")]
    BadCharacter(Place),
    /// A number that is followed directly by a letter, a digit, `_` or `.`.
    #[error("4 BadNumber")]
    BadNumber(Place),
    /// A string that is not closed on its line, or has an unknown escape.
    #[error("5 OpenString")]
    OpenString(Place),
    /// A general comment that is not closed.
    #[error("6 OpenComment")]
    OpenComment(Place),
    /// The tokens have no syntax tree.
    #[error("7 Syntax")]
    Syntax(Place),
    /// The tokens have no syntax tree of at most 200 levels.
    #[error("8 TooDeep")]
    TooDeep(Place),
    /// A typing rule is violated at this node of the tree.
    #[error("9 Type rule")]
    Typing {
        rule: Rule,
        node: u32,
        place: Place,
    },
    /// A limit is exceeded, at this node of the tree if the check finds it.
    #[error("10 Limit kind")]
    Limit {
        kind: LimitKind,
        node: Option<u32>,
        place: Place,
    },
    /// A rule of the verifier, 1 to 8, is violated at this instruction of this function.
    #[error("11 Unverified rule {rule}, function {function}, place {place}")]
    Unverified {
        rule: u8,
        function: usize,
        place: usize,
    },
    /// A piece of the output of another program or limit, or one that is not the next.
    #[error("12 NotYours")]
    NotYours,
    /// A request for memory was refused.
    #[error("13 Memory")]
    Memory,
    /// The writer refused bytes.
    #[error("14 Write")]
    Write,
    /// The number of workers is not 1 to 64.
    #[error("15 BadWorkers")]
    BadWorkers,
    /// The clock limit is not 1 to 2^62.
    #[error("16 BadLimit")]
    BadLimit,
}

impl Fault {
    /// Its number and what it is called.
    pub fn title(self) -> &'static str
        ensures { result.now ≡ fault_title self }
    {
        match self {
            Self::TooLong => "1 TooLong",
            Self::NotUtf8 => "2 NotUtf8",
            Self::BadCharacter(_) => "3 BadCharacter",
            Self::BadNumber(_) => "4 BadNumber",
            Self::OpenString(_) => "5 OpenString",
            Self::OpenComment(_) => "6 OpenComment",
            Self::Syntax(_) => "7 Syntax",
            Self::TooDeep(_) => "8 TooDeep",
            Self::Typing { .. } => "9 Type rule",
            Self::Limit { .. } => "10 Limit kind",
            Self::Unverified { .. } => "11 Unverified rule",
            Self::NotYours => "12 NotYours",
            Self::Memory => "13 Memory",
            Self::Write => "14 Write",
            Self::BadWorkers => "15 BadWorkers",
            Self::BadLimit => "16 BadLimit",
        }
    }
}

impl From<AllocError> for Memory {
    fn from(_error: AllocError) -> Memory {
        Memory
    }
}

impl<T: Drop> From<AllocFailed<T>> for Memory {
    fn from(_error: AllocFailed<T>) -> Memory {
        Memory
    }
}

impl From<Memory> for Fault {
    ghost from_gives = { λ _ e. e ≡ fault.Memory };

    fn from(_error: Memory) -> Fault {
        Fault::Memory
    }
}

impl From<NotYours> for Fault {
    ghost from_gives = { λ _ e. e ≡ fault.NotYours };

    fn from(_error: NotYours) -> Fault {
        Fault::NotYours
    }
}

impl From<AllocError> for Fault {
    ghost from_gives = { λ _ e. e ≡ fault.Memory };

    fn from(_error: AllocError) -> Fault {
        Fault::Memory
    }
}

impl<T: Drop> From<AllocFailed<T>> for Fault {
    ghost from_gives = { λ _ e. e ≡ fault.Memory };

    fn from(_error: AllocFailed<T>) -> Fault {
        Fault::Memory
    }
}
