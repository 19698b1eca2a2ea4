//! Why a call returns no value.

ghost use Rattle.std.specs.Prelude.{◌≡◌, Option, Some, option_map, IfOk, IfErr};
ghost use Rattle.serde_json.specs.Data.{Data};
ghost use Rattle.serde_json.specs.View.{view};
ghost use Rattle.gql_coerce.specs.Comes.{Outcome as AnOutcome, reached};
ghost use Rattle.gql_coerce.specs.Outcomes.{said, value};
ghost use Rattle.gql_coerce.specs.Requests.{Tells};
ghost use Rattle.gql_coerce.specs.declared.fault.CoerceFault.TheVariants.{Memory};

use crate::coerced::{Coerced, refusal_of};
use crate::coerced_value::CoercedValue;
use crate::refusal::Refusal;
use std::alloc::AllocError;
use thiserror::Error;

/// Why a call returns no value.
#[derive(Debug, Drop, Error)]
pub enum CoerceFault {
    /// The input is refused.
    #[error("the input is refused")]
    Refused(Refusal),
    /// An allocation failed, or a default value that the input takes leads back to itself (S19):
    /// such an input may come to nothing, and the call gives up.
    #[error("out of memory")]
    Memory,
}

impl From<AllocError> for CoerceFault {
    ghost from_gives = { λ _ e. e ≡ Memory };

    fn from(_: AllocError) -> CoerceFault {
        CoerceFault::Memory
    }
}

/// What an input comes to, as a result.
pub fn result_of(coerced: Coerced) -> Result<Option<CoercedValue>, CoerceFault>
    ensures ok { IfOk result (λ v. said coerced ≡ value (option_map view v)) }
    ensures err { IfErr result
        (λ e. Tells e (λ (o : AnOutcome (Option Data)). said coerced ≡ reached o)) }
{
    match coerced {
        Coerced::Given(value) => Ok(Some(value)),
        Coerced::Absent => Ok(None),
        Coerced::Refused(stop) => Err(CoerceFault::Refused(refusal_of(stop))),
    }
}
