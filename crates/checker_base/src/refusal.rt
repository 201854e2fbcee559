//! Why a check stops.

use std::alloc::{AllocError, AllocFailed};
use typing_rules::violation::Violation;

/// Why a check stops.
#[derive(Drop)]
pub enum Refusal {
    /// A request for memory was refused.
    Memory,
    /// Something is wrong with the tree.
    Violated(Violation),
}

impl From<AllocError> for Refusal {
    ghost use Rattle.checker_base.specs.declared.refusal.Refusal.TheVariants as refusals;
    ghost use Rattle.std.specs.Prelude.{◌≡◌};

    ghost from_gives = { λ _ e. e ≡ refusals.Memory };

    fn from(_error: AllocError) -> Refusal {
        Refusal::Memory
    }
}

impl<T: Drop> From<AllocFailed<T>> for Refusal {
    ghost use Rattle.checker_base.specs.declared.refusal.Refusal.TheVariants as refusals;
    ghost use Rattle.std.specs.Prelude.{◌≡◌};

    ghost from_gives = { λ _ e. e ≡ refusals.Memory };

    fn from(_error: AllocFailed<T>) -> Refusal {
        Refusal::Memory
    }
}

impl From<Violation> for Refusal {
    ghost use Rattle.checker_base.specs.declared.refusal.Refusal.TheVariants as refusals;
    ghost use Rattle.std.specs.Prelude.{◌≡◌};

    ghost from_gives = { λ violation e. e ≡ refusals.Violated violation };

    fn from(violation: Violation) -> Refusal {
        Refusal::Violated(violation)
    }
}
