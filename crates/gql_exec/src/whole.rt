//! The execution of an operation as a whole (GraphQL specification, 6.1 and 6.2).
ghost use Rattle.std.specs.Prelude.{◌≡◌, ◌<◌, find, bytes_eq, true, option_map, IfOk, IfErr, IsOkAnd};
ghost use Rattle.gql_ast.specs.declared.definition.Tree.TheVariants as tree;
ghost use Rattle.gql_ast.specs.declared.executable.Operation.{Operation as AnOperation};
ghost use Rattle.gql_ast.specs.declared.executable.OperationKind.TheVariants as operation;
ghost use Rattle.gql_ast.specs.declared.executable.VariableDefinition.{VariableDefinition as AVariable};
ghost use Rattle.gql_ast.specs.declared.files.Files.{Files as TheFiles};
ghost use Rattle.gql_collect.specs.Borrowed.{all_selections};
ghost use Rattle.serde_json.specs.View.{view};
ghost use Rattle.gql_steps.specs.Execution.{Plan, answer};
ghost use Rattle.gql_steps.specs.Objects.{basis};
ghost use Rattle.gql_steps.specs.Outcomes.{outcome_of};
ghost use Rattle.gql_steps.specs.Plans.{IsPlan, is_met, types_of};
ghost use Rattle.gql_steps.specs.Requests as spec;
ghost use Rattle.gql_steps.specs.Requests.{IsKeptOf, IsNoOperation, IsOutcome, IsTooHeavy, request_of};
ghost use Rattle.gql_steps.specs.Runs.{Answering, IsOutcomeOf, IsRefused, request};

use crate::mutation::Root;
use crate::sets::{execute_sets, mutate_sets};
use gql_ast::{Definition, FileName, Operation, OperationKind, Tree, VariableDefinition};
use gql_coerce::{CoerceFault, Refusal, Segment, coerce_variables, laws};
use gql_collect::{Context, SelectionSet};
use gql_facts::Fragments;
use gql_intro::IntroSchema;
use gql_steps::outcome::{Outcome, ResponseError};
use gql_steps::planning::refusal_text;
use gql_steps::refusal::ExecRefusal;
use gql_steps::setting::Setting;
use gql_text::Place;
use gql_types::Schema;
use serde_json::{Map, Value};
use std::alloc::{AllocError, Global};

/// The member of the data that an operation begins with.
fn root_member(kind: OperationKind) -> &'static str
    ensures { result.now ≡ spec.root_member kind }
{
    match kind {
        OperationKind::Query => "query",
        OperationKind::Mutation => "mutation",
        OperationKind::Subscription => "subscription",
    }
}

/// No data, and no errors.
fn nothing<'d>(alloc: Global) -> Outcome<'d>
    ensures { outcome_of result ≡ spec.no_outcome }
{
    Outcome {
        data: None,
        errors: Vec::new(alloc),
        effects: Vec::new(alloc),
    }
}

/// Executes the selection sets of an operation that changes nothing.
fn execute_query<'d>(
    alloc: Global,
    setting: &Setting<'d, '_>,
    kind: OperationKind,
    root: &str,
    sets: &[SelectionSet<'d>],
    stored: &Value,
    most: usize,
) -> Result<Outcome<'d>, ExecRefusal>
    ensures outcome { IfOk result (λ o. is_met (basis setting.now) root.now root.now ≡ true
        → (x : Plan) → IsPlan (basis setting.now) root.now (all_selections sets.now) x
        → IsOutcomeOf most (outcome_of o) (answer (types_of (basis setting.now)) x root.now
        (spec.initial_value kind (view stored.now)))) }
    ensures heavy { IfErr result (λ e. e ≡ ExecRefusal.TooHeavy
        → is_met (basis setting.now) root.now root.now ≡ true
        → (x : Plan) → IsPlan (basis setting.now) root.now (all_selections sets.now) x
        → most < (answer (types_of (basis setting.now)) x root.now
        (spec.initial_value kind (view stored.now))).weight) }
{
    match stored.get(root_member(kind)) {
        Some(initial) => execute_sets(alloc, setting, root, sets, initial, most),
        None => {
            let initial = Value::from(Map::new(alloc));
            execute_sets(alloc, setting, root, sets, &initial, most)
        }
    }
}

/// Executes the selection sets of a mutation.
fn execute_mutation<'d>(
    alloc: Global,
    setting: &Setting<'d, '_>,
    root: &str,
    sets: &[SelectionSet<'d>],
    stored: &Value,
    most: usize,
) -> Result<Outcome<'d>, ExecRefusal>
    ensures outcome { IfOk result (λ o. is_met (basis setting.now) root.now root.now ≡ true
        → (x : Plan) → IsPlan (basis setting.now) root.now (all_selections sets.now) x
        → IsOutcomeOf most (outcome_of o) (spec.answer_for operation.Mutation (basis setting.now) x
        root.now (view stored.now))) }
    ensures heavy { IfErr result (λ e. e ≡ ExecRefusal.TooHeavy
        → is_met (basis setting.now) root.now root.now ≡ true
        → (x : Plan) → IsPlan (basis setting.now) root.now (all_selections sets.now) x
        → most < (spec.answer_for operation.Mutation (basis setting.now) x
        root.now (view stored.now)).weight) }
{
    let empty = Value::from(Map::new(alloc));
    let root = Root {
        of_type: root,
        stored,
        initial: stored.get("mutation").unwrap_or(&empty),
    };
    mutate_sets(alloc, setting, root, sets, most)
}

/// Executes an operation with the values of its variables.
fn execute_operation<'d>(
    alloc: Global,
    setting: &Setting<'d, '_>,
    file: &'d FileName,
    operation: &'d Operation,
    stored: &Value,
    most: usize,
) -> Result<Outcome<'d>, ExecRefusal>
    ensures outcome { IfOk result (λ o. Answering (basis setting.now) file.now operation.now
        (view stored.now) (λ a. IsOutcomeOf most (outcome_of o) a)) }
    ensures heavy { IfErr result (λ e. e ≡ ExecRefusal.TooHeavy
        → Answering (basis setting.now) file.now operation.now (view stored.now)
        (λ a. most < a.weight)) }
{
    let Some(root) = setting.context.schema.root(operation.kind) else {
        return Ok(nothing(alloc));
    };
    let root = root.name.node.as_str();
    let sets = [SelectionSet {
        file,
        selections: operation.selections.as_slice(),
    }];
    match operation.kind {
        OperationKind::Mutation => execute_mutation(alloc, setting, root, &sets, stored, most),
        OperationKind::Query | OperationKind::Subscription => {
            execute_query(alloc, setting, operation.kind, root, &sets, stored, most)
        }
    }
}

/// The place of the definition of a variable. Of those of one name, the first counts.
fn place_of_variable(definitions: &[VariableDefinition], name: &str) -> Option<Place>
    ensures { result ≡ option_map (λ (v : AVariable). v.place)
        (find (λ (v : AVariable). bytes_eq name.now v.name.text) definitions.now) }
{
    for definition in definitions {
        if name == definition.name.as_str() {
            return Some(definition.place);
        }
    }
    None
}

/// The place of the definition of the variable that a path begins with.
fn variable_place(definitions: &[VariableDefinition], path: &[Segment]) -> Option<Place>
    ensures { result ≡ option_map (λ (v : AVariable). v.place)
        (spec.variable_at definitions.now path.now) }
{
    match path {
        [Segment::Key(name), ..] => place_of_variable(definitions, name.as_str()),
        [Segment::Index(_), ..] => None,
        [] => None,
    }
}

/// What a refused variable comes to: a request error, without data.
fn request_error<'d>(
    alloc: Global,
    definitions: &[VariableDefinition],
    refusal: &Refusal,
) -> Result<Outcome<'d>, AllocError>
    ensures { IfOk result (λ o. IsRefused definitions.now refusal.now (outcome_of o)) }
{
    let Some(place) = variable_place(definitions, refusal.path.as_slice()) else {
        return Ok(nothing(alloc));
    };
    let message = refusal_text(alloc, "variable $", refusal)?;
    let mut errors = Vec::new(alloc);
    errors.push(ResponseError {
        message,
        place,
        path: None,
    })?;
    Ok(Outcome {
        data: None,
        errors,
        effects: Vec::new(alloc),
    })
}

/// Coerces the variables, and executes the operation.
fn execute_request<'d>(
    alloc: Global,
    fragments: &'d Fragments,
    schema: &'d Schema,
    made: &'d IntroSchema,
    file: &'d FileName,
    operation: &'d Operation,
    variables: &Value,
    stored: &Value,
    most: usize,
) -> Result<Outcome<'d>, ExecRefusal>
    ensures outcome { IfOk result (λ o. IsOutcome most (request schema.now made.now
        fragments.now.all file.now operation.now (view variables.now) (view stored.now))
        (outcome_of o)) }
    ensures heavy { IfErr result (λ e. e ≡ ExecRefusal.TooHeavy → IsTooHeavy most
        (request schema.now made.now fragments.now.all file.now operation.now
        (view variables.now) (view stored.now))) }
{
    laws::one_of_variables();
    let definitions = operation.variables.as_slice();
    match coerce_variables(alloc, schema, definitions, variables) {
        Ok(values) => {
            let context = Context {
                schema,
                fragments,
                values: &values,
            };
            let setting = Setting { context, made };
            execute_operation(alloc, &setting, file, operation, stored, most)
        }
        Err(CoerceFault::Refused(refusal)) => Ok(request_error(alloc, definitions, &refusal)?),
        Err(CoerceFault::Memory) => Err(ExecRefusal::Memory),
    }
}

/// Executes an operation (GraphQL specification, 6.1, ExecuteRequest). The object `variables` has
/// the values that a request gives its variables, and `stored` is the data.
///
/// First the variables are coerced; the first refusal is a request error, and nothing is executed.
/// Then the selections are executed on the data. The data are not changed: the outcome has what a
/// mutation is to add to them. If more than `most` values are to be completed, the execution is
/// refused: each field of an answer counts as one, and so does each item of a list.
///
/// `schema`, `made` and `fragments` are what the caller keeps of its files: the outcome is that of
/// the request by the files alone. A definition that is not an operation has neither data nor
/// errors.
pub fn execute<'d>(
    alloc: Global,
    fragments: &'d Fragments,
    schema: &'d Schema,
    made: &'d IntroSchema,
    definition: &'d Definition,
    variables: &Value,
    stored: &Value,
    most: usize,
) -> Result<Outcome<'d>, ExecRefusal>
    ensures outcome { IfOk result (λ o. (files : TheFiles) → (operation : AnOperation)
        → IsKeptOf files schema.now made.now fragments.now.all
        → definition.now.tree ≡ tree.Operation operation
        → IsOutcome most (request_of files definition.now operation (view variables.now)
        (view stored.now)) (outcome_of o)) }
    ensures heavy { IfErr result (λ e. e ≡ ExecRefusal.TooHeavy
        → (files : TheFiles) → (operation : AnOperation)
        → IsKeptOf files schema.now made.now fragments.now.all
        → definition.now.tree ≡ tree.Operation operation
        → IsTooHeavy most (request_of files definition.now operation (view variables.now)
        (view stored.now))) }
    ensures other { IsNoOperation definition.now
        → IsOkAnd result (λ o. outcome_of o ≡ spec.no_outcome) }
{
    let Tree::Operation(operation) = &definition.tree else {
        return Ok(nothing(alloc));
    };
    let file = &definition.file;
    let operation = operation.get();
    execute_request(
        alloc, fragments, schema, made, file, operation, variables, stored, most,
    )
}
