//! Calls of stored operations.
ghost use Rattle.std.specs.Prelude.{◌≡◌, ◌≢◌, ℕ, List, [], IfErr, IfOk};
ghost use Rattle.std.specs.Option.{option_copied};
ghost use Rattle.gql_ast.specs.declared.files.Files.{Files as TheFiles};
ghost use Rattle.gql_registry.specs.Calling.{IsOutcomeOf, IsOver, TellsRun};
ghost use Rattle.gql_registry.specs.Calls.{Answers, AreAgainst};
ghost use Rattle.gql_registry.specs.Keeping.{IsKnownOf};
ghost use Rattle.gql_registry.specs.Prepared.{ran_of};
ghost use Rattle.gql_registry.specs.Runs as spec;
ghost use Rattle.serde_json.specs.View.{view};

use crate::refusal::Refusal;
use crate::report::{Known, sharing};
use gql_ast::{Definition, Fault, Items, OperationKind, Profile, Shared, Tree};
use gql_exec::{Effect, ExecRefusal, execute};
use gql_facts::Present;
use gql_reply::reply_text;
use gql_serving::{laws, owned_faults};
use serde_json::Value;
use std::alloc::{AllocError, Global};

/// What an executed call comes to: the text of its reply, and what it is to add to the data.
#[derive(Drop)]
pub struct Ran {
    pub body: Vec<u8>,
    pub effects: Vec<Effect>,
}

/// The faults that keep an operation from being executed.
fn faults_against(
    alloc: Global,
    known: &Known,
    definition: &Definition,
) -> Result<Vec<Shared<Fault>>, AllocError>
    ensures { IfOk result (λ faults. (files : TheFiles) → IsKnownOf files known.now
        → AreAgainst files definition.now faults.items) }
{
    let schema = known.schema.get();
    if !schema.faults.as_slice().is_empty() {
        return sharing(alloc, known.report.as_slice());
    }
    let mut world = Present::new(&schema.facts, &known.index.fragments);
    let faults = owned_faults(
        alloc,
        &mut world,
        definition,
        known.report.as_slice(),
        &known.owners,
    )?;
    Ok(faults)
}

/// Whether operations of this kind are run: a subscription is not.
fn is_run(kind: OperationKind) -> bool
    ensures { result ≡ spec.is_run kind }
{
    match kind {
        OperationKind::Query | OperationKind::Mutation => true,
        OperationKind::Subscription => false,
    }
}

/// Whether the operation of a definition is run.
fn runs(definition: &Definition) -> bool
    ensures { TellsRun definition.now result }
{
    match &definition.tree {
        Tree::Operation(operation) => is_run(operation.get().kind),
        _ => false,
    }
}

/// Executes an operation within the limit of the profile, and writes the reply.
fn executed(
    alloc: Global,
    profile: Profile,
    known: &Known,
    definition: &Definition,
    variables: &Value,
    stored: &Value,
) -> Result<Ran, Refusal>
    ensures ok { IfOk result (λ ran. (files : TheFiles) → IsKnownOf files known.now
        → files.profile ≡ profile
        → IsOutcomeOf files definition.now (view variables.now) (view stored.now) ran) }
    ensures err { IfErr result (λ e. (files : TheFiles) → IsKnownOf files known.now
        → files.profile ≡ profile
        → IsOver files definition.now (view variables.now) (view stored.now) e) }
{
    let schema = known.schema.get();
    let fragments = &known.index.fragments;
    match execute(
        alloc,
        fragments,
        &schema.schema,
        &schema.made,
        definition,
        variables,
        stored,
        profile.limits.values,
    ) {
        Ok(outcome) => {
            let body = reply_text(alloc, &outcome)?;
            let effects = outcome.into_effects();
            Ok(Ran { body, effects })
        }
        Err(ExecRefusal::TooHeavy) => Err(Refusal::TooLarge),
        Err(ExecRefusal::Memory) => Err(Refusal::Memory),
    }
}

/// Answers a call of the operation of a name, or of the only one, with these values for its
/// variables, on this data, under the profile of the files. The refusals are 208, 209, 213 and 210, in
/// this order.
pub fn answer_call(
    alloc: Global,
    profile: Profile,
    known: &Known,
    name: Option<&str>,
    variables: &Value,
    stored: &Value,
) -> Result<Ran, Refusal>
    ensures { (files : TheFiles) → IsKnownOf files known.now → files.profile ≡ profile
        → Answers files (view stored.now) (option_copied name.entry) (view variables.now)
        (ran_of result) }
{
    // The law that every request of an operation without faults has a response.
    laws::some_answer();
    let Some(definition) = known.index.operations.chosen(name) else {
        return Err(Refusal::NoOperation);
    };
    let faults = faults_against(alloc, known, definition)?;
    if !faults.as_slice().is_empty() {
        return Err(Refusal::Faulty {
            faults: Items::from_vec(faults),
        });
    }
    if !runs(definition) {
        return Err(Refusal::NotRun);
    }
    executed(alloc, profile, known, definition, variables, stored)
}
