//! What the coercion of an input comes to.
ghost use Rattle.std.specs.Prelude.{◌≡◌, ◌∷◌, [], Some, None, IfOk, reverse};
ghost use Rattle.serde_json.specs.View.{view};
ghost use Rattle.gql_coerce.specs.Outcomes.{said, argument_said, value, refused as is_refused, within};
ghost use Rattle.gql_coerce.specs.declared.refusal.Segment.TheVariants.{Key, Index};

use crate::coerced_object::CoercedObject;
use crate::coerced_value::CoercedValue;
use crate::refusal::{Reason, Refusal, Segment};
use gql_ast::{Items, Shared, Text};
use std::alloc::{AllocError, Global};

/// What the coercion of an input comes to.
#[derive(Drop)]
pub enum Coerced {
    Given(CoercedValue),
    /// The input is a variable without a value.
    Absent,
    Refused(Stop),
}

/// What the coercion of an argument comes to. Its value may be shared.
#[derive(Drop)]
pub enum CoercedArgument {
    Given(Shared<CoercedValue>),
    /// The argument is not given, or a variable without a value.
    Absent,
    Refused(Stop),
}

/// What the coercion of the variables of a request or of the arguments of a field comes to.
#[derive(Drop)]
pub enum CoercedRequest {
    Given(CoercedObject),
    Refused(Stop),
}

/// Why an input is refused, and the steps that lead to the place, the last one first.
#[derive(Drop)]
pub struct Stop {
    pub reason: Reason,
    pub steps: Vec<Segment>,
}

/// The refusal that users see.
pub fn refusal_of(stop: Stop) -> Refusal
    ensures { (result.reason ≡ stop.reason) × (result.path ≡ reverse stop.steps.items) }
{
    let Stop { reason, mut steps } = stop;
    steps.reverse();
    Refusal {
        reason,
        path: Items::from_vec(steps),
    }
}

/// The input itself is refused.
pub fn refused(alloc: Global, reason: Reason) -> Coerced
    ensures { said result ≡ is_refused reason [] }
{
    Coerced::Refused(Stop {
        reason,
        steps: Vec::new(alloc),
    })
}

/// The refusal of a part, under this segment.
fn behind(segment: Segment, stop: Stop) -> Result<Stop, AllocError>
    ensures { IfOk result (λ r. (r.reason ≡ stop.reason)
        × (reverse r.steps.items ≡ segment ∷ reverse stop.steps.items)) }
{
    let Stop { reason, mut steps } = stop;
    steps.push(segment)?;
    Ok(Stop { reason, steps })
}

/// What a field of that name comes to, if its value comes to this.
pub fn at_key(alloc: Global, name: &str, coerced: Coerced) -> Result<Coerced, AllocError>
    ensures { IfOk result (λ c. said c ≡ within (Key name.now) (said coerced)) }
{
    match coerced {
        Coerced::Refused(stop) => {
            let segment = Segment::Key(Text::from_str(alloc, name)?);
            Ok(Coerced::Refused(behind(segment, stop)?))
        }
        Coerced::Given(_) | Coerced::Absent => Ok(coerced),
    }
}

/// What the item at that index comes to, if its value comes to this.
pub fn at_index(index: usize, coerced: Coerced) -> Result<Coerced, AllocError>
    ensures { IfOk result (λ c. said c ≡ within (Index index) (said coerced)) }
{
    match coerced {
        Coerced::Refused(stop) => {
            let segment = Segment::Index(index);
            Ok(Coerced::Refused(behind(segment, stop)?))
        }
        Coerced::Given(_) | Coerced::Absent => Ok(coerced),
    }
}

/// What an argument comes to, the value of which is its own.
pub fn as_argument(alloc: Global, coerced: Coerced) -> Result<CoercedArgument, AllocError>
    ensures { IfOk result (λ c. argument_said c ≡ said coerced) }
{
    match coerced {
        Coerced::Given(value) => Ok(CoercedArgument::Given(Shared::new(alloc, value)?)),
        Coerced::Absent => Ok(CoercedArgument::Absent),
        Coerced::Refused(stop) => Ok(CoercedArgument::Refused(stop)),
    }
}
