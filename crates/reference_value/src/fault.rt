//! Why evaluating stops.

ghost use Rattle.std.specs.Prelude.{◌≡◌, IfOk, IfErr, Ok};
ghost use Rattle.reference_value.specs.Stops.{IsMemory};

use crate::given::{Given, Need};
use std::alloc::{AllocError, AllocFailed};
use word::panic::Panic;

/// Why evaluating stops.
#[derive(Drop)]
pub enum Stop {
    /// A request for memory was refused.
    Memory,
    /// The goroutine panics.
    Panics(Panic),
    /// Something has to be done first.
    Needs(Box<Need>),
}

impl From<AllocError> for Stop {
    ghost use Rattle.reference_value.specs.declared.fault.Stop.TheVariants as stops;
    ghost use Rattle.std.specs.Prelude.{◌≡◌};

    ghost from_gives = { λ _ e. e ≡ stops.Memory };

    fn from(_error: AllocError) -> Stop {
        Stop::Memory
    }
}

impl<T: Drop> From<AllocFailed<T>> for Stop {
    ghost use Rattle.reference_value.specs.declared.fault.Stop.TheVariants as stops;
    ghost use Rattle.std.specs.Prelude.{◌≡◌};

    ghost from_gives = { λ _ e. e ≡ stops.Memory };

    fn from(_error: AllocFailed<T>) -> Stop {
        Stop::Memory
    }
}

impl From<Panic> for Stop {
    ghost use Rattle.reference_value.specs.declared.fault.Stop.TheVariants as stops;
    ghost use Rattle.std.specs.Prelude.{◌≡◌};

    ghost from_gives = { λ cause e. e ≡ stops.Panics cause };

    fn from(cause: Panic) -> Stop {
        Stop::Panics(cause)
    }
}

/// What was made, with what is left of what was given.
pub(crate) fn had<T: Drop>(
    made: Result<T, AllocError>,
    left: &[Given],
) -> Result<(T, &[Given]), Stop>
    ensures made { IfOk result (λ r. made ≡ Ok r.0) }
    ensures left { IfOk result (λ r. r.1.now ≡ left.now) }
    ensures err { IfErr result IsMemory }
{
    Ok((made?, left))
}
