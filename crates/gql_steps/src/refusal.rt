//! Why an execution stops.
ghost use Rattle.std.specs.Prelude.{◌≡◌};
ghost use Rattle.gql_steps.specs.declared.refusal.ExecRefusal.TheVariants.{Memory};

use std::alloc::{AllocError, AllocFailed};

/// Why an execution stops.
#[derive(Clone, Copy, Debug, Drop)]
pub enum ExecRefusal {
    /// An allocation failed.
    Memory,
    /// More values are to be completed than the limit allows.
    TooHeavy,
}

impl From<AllocError> for ExecRefusal {
    ghost from_gives = { λ _ e. e ≡ Memory };

    fn from(_error: AllocError) -> ExecRefusal {
        ExecRefusal::Memory
    }
}

impl<T: Drop> From<AllocFailed<T>> for ExecRefusal {
    ghost from_gives = { λ _ e. e ≡ Memory };

    fn from(_error: AllocFailed<T>) -> ExecRefusal {
        ExecRefusal::Memory
    }
}
