//! The values of variables (GraphQL specification, 6.1.2) and of arguments (6.4.1).
ghost use Rattle.std.specs.Prelude.{◌≡◌, ℕ, suc, IfOk, IfErr, IfSome, Some, map, find, bytes_eq, option_map};
ghost use Rattle.std.specs.Option.{option_copied};
ghost use Rattle.gql_types.specs.Written.{Written, written};
ghost use Rattle.serde_json.specs.Data.{Data};
ghost use Rattle.serde_json.specs.View.{view};
ghost use Rattle.gql_coerce.specs.Comes.{Outcome as AnOutcome, Eventually, reached, value};
ghost use Rattle.gql_coerce.specs.Inputs.{literal, json_input};
ghost use Rattle.gql_coerce.specs.Outcomes.{said, argument_said, request_said, after, value as is_value};
ghost use Rattle.gql_coerce.specs.Scopes.{variables_of};
ghost use Rattle.gql_coerce.specs.Requests as spec;
ghost use Rattle.gql_coerce.specs.Requests.{Tells};

use crate::coerced::{
    Coerced, CoercedArgument, CoercedRequest, as_argument, at_key, refusal_of, refused,
};
use crate::coerced_object::{CoercedObject, add_shared};
use crate::coerced_value::CoercedValue;
use crate::fault::CoerceFault;
use crate::literals::shared_value;
use crate::part::Part;
use crate::refusal::Reason;
use crate::walk;
use gql_ast::{Argument, InputValueDefinition, Literal, Shared, TypeRef, VariableDefinition};
use gql_inputs::is_non_null;
use gql_types::{HasName, Named, Schema};
use serde_json::{Map, Value};
use std::alloc::{AllocError, Global};

/// The schema, and the object that has the values of the variables, if there may be some.
#[derive(Clone, Copy)]
pub struct Scope<'a> {
    pub schema: &'a Schema,
    pub variables: Option<&'a CoercedObject>,
}

fn default_at(
    alloc: Global,
    schema: &Schema,
    of_type: &TypeRef,
    default: Option<&Literal>,
) -> Result<Coerced, AllocError>
    ensures { IfOk result (λ c. Eventually (λ n. spec.default_at n schema.now
        (written of_type.now) (option_copied default.entry) ≡ said c)) }
{
    match default {
        Some(value) => { walk::coerce(alloc, schema, Part::Literal(value, None), Some(of_type)) }
        None => {
            if is_non_null(of_type) {
                Ok(refused(alloc, Reason::NullForNonNull))
            } else {
                Ok(Coerced::Absent)
            }
        }
    }
}

fn or_default_at(
    alloc: Global,
    schema: &Schema,
    of_type: &TypeRef,
    default: Option<&Literal>,
    given: Coerced,
) -> Result<Coerced, AllocError>
    ensures { IfOk result (λ c. Eventually (λ n. after (said given) (spec.or_default_at n schema.now
        (written of_type.now) (option_copied default.entry)) ≡ said c)) }
{
    match given {
        Coerced::Absent => default_at(alloc, schema, of_type, default),
        Coerced::Given(_) | Coerced::Refused(_) => Ok(given),
    }
}

fn coerce_value(
    alloc: Global,
    schema: &Schema,
    of_type: &TypeRef,
    given: Option<&Value>,
) -> Result<Coerced, AllocError>
    ensures { IfOk result (λ c. Eventually (λ n. spec.given_at n schema.now (written of_type.now)
        (option_map json_input (option_map (λ v. view v.now) given.entry)) ≡ said c)) }
{
    match given {
        Some(value) => walk::coerce(alloc, schema, Part::Json(value), Some(of_type)),
        None => Ok(Coerced::Absent),
    }
}

fn coerce_variable(
    alloc: Global,
    schema: &Schema,
    definition: &VariableDefinition,
    values: &Value,
) -> Result<Coerced, AllocError>
    ensures { IfOk result (λ c. Eventually
        (λ n. spec.variable_value n schema.now (view values.now) definition.now ≡ said c)) }
{
    let of_type = &definition.of_type;
    let name = definition.name.as_str();
    let given = coerce_value(alloc, schema, of_type, values.get(name))?;
    let default = definition.default.as_ref();
    let coerced = or_default_at(alloc, schema, of_type, default, given)?;
    let placed = at_key(alloc, name, coerced)?;
    Ok(placed)
}

fn variables(
    alloc: Global,
    schema: &Schema,
    definitions: &[VariableDefinition],
    values: &Value,
) -> Result<CoercedRequest, AllocError>
    ensures { IfOk result (λ c. Eventually (λ n. spec.variables n schema.now definitions.now
        (view values.now) ≡ request_said c)) }
{
    let mut members = Map::new(alloc);
    for definition in definitions {
        match coerce_variable(alloc, schema, definition, values)? {
            Coerced::Given(value) => {
                let value = Shared::new(alloc, value)?;
                add_shared(alloc, definition.name.as_str(), value, &mut members)?;
            }
            Coerced::Absent => {}
            Coerced::Refused(refusal) => return Ok(CoercedRequest::Refused(refusal)),
        }
    }
    Ok(CoercedRequest::Given(CoercedObject::new(members)))
}

/// What variables or arguments come to, as a result.
fn of_request(coerced: CoercedRequest) -> Result<CoercedObject, CoerceFault>
    ensures ok { IfOk result (λ v. request_said coerced ≡ reached (value (view v))) }
    ensures err { IfErr result
        (λ e. Tells e (λ (o : AnOutcome Data). request_said coerced ≡ reached o)) }
{
    match coerced {
        CoercedRequest::Given(object) => Ok(object),
        CoercedRequest::Refused(stop) => Err(CoerceFault::Refused(refusal_of(stop))),
    }
}

/// The values of the variables that these definitions have, as an object (GraphQL specification,
/// 6.1.2), or the first refusal. The object `values` has those that a request gives: missing ones
/// take their defaults, and undefined ones are ignored. Refusals come in the order of the
/// definitions; the path begins with the variable's name. A missing variable of a Non-Null type
/// without a default is 121. `Memory` is returned, too, if a default value that a variable takes
/// leads back to itself.
pub fn coerce_variables(
    alloc: Global,
    schema: &Schema,
    definitions: &[VariableDefinition],
    values: &Value,
) -> Result<CoercedObject, CoerceFault>
    ensures ok { IfOk result
        (λ v. spec.VariablesCome schema.now definitions.now (view values.now) (value (view v))) }
    ensures err { IfErr result
        (λ e. Tells e (spec.VariablesCome schema.now definitions.now (view values.now))) }
{
    let coerced = variables(alloc, schema, definitions, values)?;
    of_request(coerced)
}

/// An argument, which a look-up finds by its name.
#[derive(Drop)]
struct GivenArgument<'v> {
    argument: &'v Argument,
}

impl HasName for GivenArgument<'_> {
    ghost name = { λ g. g.argument.now.name.text };

    fn name(&self) -> &str {
        self.argument.name.as_str()
    }
}

fn given_arguments<'v>(
    alloc: Global,
    arguments: &'v [Argument],
) -> Result<Vec<GivenArgument<'v>>, AllocError>
    ensures { IfOk result (λ found. map (λ g. g.argument.now) found.items ≡ arguments.now) }
{
    let mut found = Vec::new(alloc);
    for argument in arguments {
        found.push(GivenArgument { argument })?;
    }
    Ok(found)
}

fn argument_named<'v>(given: &Named<GivenArgument<'v>>, name: &str) -> Option<&'v Argument>
    ensures { option_copied result
        ≡ find (λ a. bytes_eq name.now a.name.text) (map (λ g. g.argument.now) given.now) }
{
    match given.get(name) {
        Some(found) => Some(found.argument),
        None => None,
    }
}

fn coerce_given(
    alloc: Global,
    scope: &Scope<'_>,
    of_type: &TypeRef,
    given: Option<&Argument>,
) -> Result<Coerced, AllocError>
    ensures { IfOk result
        (λ c. Eventually (λ n. spec.given_at n scope.now.schema.now (written of_type.now)
        (option_map (λ a. literal (variables_of scope.now) a.value) (option_copied given.entry))
        ≡ said c)) }
{
    match given {
        Some(argument) => {
            let part = Part::Literal(&argument.value, scope.variables);
            walk::coerce(alloc, scope.schema, part, Some(of_type))
        }
        None => Ok(Coerced::Absent),
    }
}

/// The value of the variable that an argument is, which others may share. There is none if the
/// argument is not a variable, or if the variable has no value or null.
fn shared_given<'v>(scope: &Scope<'v>, given: Option<&Argument>) -> Option<&'v Shared<CoercedValue>>
    ensures { IfSome result (λ v. (n : ℕ) → (t : Written)
        → spec.given_at (suc n) scope.now.schema.now t
        (option_map (λ a. literal (variables_of scope.now) a.value) (option_copied given.entry))
        ≡ is_value (Some (view v.now))) }
{
    match given {
        Some(argument) => shared_value(&argument.value, scope.variables),
        None => None,
    }
}

/// What an argument comes to that is given so, with a value of its own.
fn own_argument(
    alloc: Global,
    scope: &Scope<'_>,
    definition: &InputValueDefinition,
    given: Option<&Argument>,
) -> Result<Coerced, AllocError>
    ensures { IfOk result (λ c. Eventually (λ n. spec.request_at n scope.now.schema.now
        definition.now.name.text (written definition.now.of_type) definition.now.default
        (option_map (λ a. literal (variables_of scope.now) a.value) (option_copied given.entry))
        ≡ said c)) }
{
    let of_type = &definition.of_type;
    let name = definition.name.as_str();
    let found = coerce_given(alloc, scope, of_type, given)?;
    let default = definition.default.as_ref();
    let coerced = or_default_at(alloc, scope.schema, of_type, default, found)?;
    let placed = at_key(alloc, name, coerced)?;
    Ok(placed)
}

fn coerce_argument(
    alloc: Global,
    scope: &Scope<'_>,
    definition: &InputValueDefinition,
    given: &Named<GivenArgument<'_>>,
) -> Result<CoercedArgument, AllocError>
    ensures { IfOk result (λ c. Eventually (λ n. spec.argument_value n scope.now.schema.now
        (variables_of scope.now) (map (λ g. g.argument.now) given.now) definition.now
        ≡ argument_said c)) }
{
    let given = argument_named(given, definition.name.as_str());
    match shared_given(scope, given) {
        Some(value) => Ok(CoercedArgument::Given(value.clone()?)),
        None => {
            let coerced = own_argument(alloc, scope, definition, given)?;
            as_argument(alloc, coerced)
        }
    }
}

fn arguments(
    alloc: Global,
    scope: &Scope<'_>,
    definitions: &[Shared<InputValueDefinition>],
    given: &Named<GivenArgument<'_>>,
) -> Result<CoercedRequest, AllocError>
    ensures { IfOk result (λ c. Eventually (λ n. spec.arguments n scope.now.schema.now
        definitions.now (map (λ g. g.argument.now) given.now) (variables_of scope.now)
        ≡ request_said c)) }
{
    let mut members = Map::new(alloc);
    for definition in definitions {
        let definition = definition.get();
        match coerce_argument(alloc, scope, definition, given)? {
            CoercedArgument::Given(value) => {
                add_shared(alloc, definition.name.as_str(), value, &mut members)?;
            }
            CoercedArgument::Absent => {}
            CoercedArgument::Refused(refusal) => return Ok(CoercedRequest::Refused(refusal)),
        }
    }
    Ok(CoercedRequest::Given(CoercedObject::new(members)))
}

fn all_arguments(
    alloc: Global,
    scope: &Scope<'_>,
    definitions: &[Shared<InputValueDefinition>],
    given: &[Argument],
) -> Result<CoercedRequest, AllocError>
    ensures { IfOk result (λ c. Eventually (λ n. spec.arguments n scope.now.schema.now
        definitions.now given.now (variables_of scope.now) ≡ request_said c)) }
{
    let found = Named::new(alloc, given_arguments(alloc, given)?)?;
    let coerced = arguments(alloc, scope, definitions, &found)?;
    Ok(coerced)
}

/// The values of the arguments that these definitions have, as an object (GraphQL specification,
/// 6.4.1), or the first refusal. The object `variables` has the values of the variables. Of
/// arguments of one name, the first counts; undefined ones are ignored. Refusals come in the order
/// of the definitions; the path begins with the argument's name. A missing argument of a Non-Null
/// type without a default is 121. `Memory` is returned, too, if a default value that an argument
/// takes leads back to itself.
///
/// An argument that is a variable shares the variable's value. A variable within a list or an
/// object is copied.
pub fn coerce_arguments(
    alloc: Global,
    schema: &Schema,
    definitions: &[Shared<InputValueDefinition>],
    given: &[Argument],
    values: &CoercedObject,
) -> Result<CoercedObject, CoerceFault>
    ensures ok { IfOk result (λ v. spec.ArgumentsCome schema.now definitions.now given.now
        (view values.now) (value (view v))) }
    ensures err { IfErr result
        (λ e. Tells e (spec.ArgumentsCome schema.now definitions.now given.now (view values.now))) }
{
    let scope = Scope {
        schema,
        variables: Some(values),
    };
    let coerced = all_arguments(alloc, &scope, definitions, given)?;
    of_request(coerced)
}
