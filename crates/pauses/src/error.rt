//! Why a file is no plan.

ghost use Rattle.std.specs.Prelude.{◌≡◌};
ghost use Rattle.pauses.specs.declared.error.PlanError.TheVariants as errors;

use go_text::Memory;
use std::alloc::{AllocError, AllocFailed};

/// Why a file is no plan.
#[derive(Clone, Copy, Debug, PartialEq, Eq, thiserror::Error)]
pub enum PlanError {
    /// A request for memory was refused.
    #[error("13 Memory")]
    Memory,
    /// The line of this number, counted from 1, is no pause, or a second one of its kind for the same request.
    #[error("broken plan at line {0}")]
    Broken(u64),
}

impl From<Memory> for PlanError {
    ghost from_gives = { λ _ e. e ≡ errors.Memory };

    fn from(_memory: Memory) -> PlanError {
        PlanError::Memory
    }
}

impl From<AllocError> for PlanError {
    ghost from_gives = { λ _ e. e ≡ errors.Memory };

    fn from(_error: AllocError) -> PlanError {
        PlanError::Memory
    }
}

impl<T: Drop> From<AllocFailed<T>> for PlanError {
    ghost from_gives = { λ _ e. e ≡ errors.Memory };

    fn from(_error: AllocFailed<T>) -> PlanError {
        PlanError::Memory
    }
}
