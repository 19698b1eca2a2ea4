//! S32, Bad Arguments: an argument of an applied directive is undefined, repeated or missing.
//! <https://spec.graphql.org/October2021/#sec-Argument-Names>
//! <https://spec.graphql.org/October2021/#sec-Argument-Uniqueness>
//! <https://spec.graphql.org/October2021/#sec-Required-Arguments>
//!
//! At fault: `type Query { a: Int @deprecated(why: "b") }`
//! No fault: `type Query { a: Int @deprecated(reason: "b") }`
ghost use Rattle.std.specs.Prelude.{◌≡◌, ◌++◌, [], ℕ, List, IfOk, OnOk, map, flat_map, bytes_eq, is_some, Some, None, if◌then◌else◌};
ghost use Rattle.std.specs.List.{list_any};
ghost use Rattle.std.specs.HashMap as hash;
ghost use Rattle.gql_ast.specs.declared.rule.Rule.TheVariants as rule;
ghost use Rattle.gql_faults.specs.Faults.{fault_at};
ghost use Rattle.gql_faults.specs.Places.{named, spot};
ghost use Rattle.gql_node_rules.specs.Borrowed.{application};
ghost use Rattle.gql_node_rules.specs.Resolved.{resolution};
ghost use Rattle.gql_node_rules.specs.S32BadArguments as spec;

use crate::applied::Applied;
use crate::resolved::Resolved;
use crate::signature::Signature;
use gql_ast::{Fault, InputValueDefinition, Rule};
use gql_faults::{NamePlace, Spot, add_fault, add_fault_of, add_repeated};
use std::alloc::{AllocError, Global};
use std::collections::HashMap;

fn given<'t>(alloc: Global, applied: &Applied<'t>) -> Result<Vec<NamePlace<'t>>, AllocError>
    ensures { IfOk result (λ found. map named found.items ≡ spec.given (application applied.now)) }
{
    let mut found = Vec::new(alloc);
    for argument in applied.directive.arguments.as_slice() {
        found.push(NamePlace {
            file: applied.file,
            name: &argument.name,
        })?;
    }
    Ok(found)
}

fn check_given(
    alloc: Global,
    signature: &Signature<'_>,
    name: &NamePlace<'_>,
    faults: &mut Vec<Fault>,
) -> Result<(), AllocError>
    ensures { OnOk result (faults.new.items ≡ faults.old.items
        ++ spec.fault_of_given signature.now.definition.now.node.arguments (named name.now)) }
{
    if !signature.defines(name.name.as_str()) {
        add_fault_of(alloc, Rule::S32, name, faults)?;
    }
    Ok(())
}

fn check_all_given(
    alloc: Global,
    signature: &Signature<'_>,
    given: &[NamePlace<'_>],
    faults: &mut Vec<Fault>,
) -> Result<(), AllocError>
    ensures { OnOk result (faults.new.items ≡ faults.old.items
        ++ flat_map (spec.fault_of_given signature.now.definition.now.node.arguments)
        (map named given.now)) }
{
    for name in given {
        check_given(alloc, signature, name, faults)?;
    }
    Ok(())
}

/// The texts of these names.
fn texts<'t>(alloc: Global, names: &[NamePlace<'t>]) -> Result<HashMap<&'t str, ()>, AllocError>
    ensures { IfOk result (λ texts. (q : List ℕ) →
        is_some (hash.get_by (λ k. bytes_eq q k.now) texts)
        ≡ list_any (λ n. bytes_eq q n.node.text) (map named names.now)) }
{
    let mut texts = HashMap::new(alloc);
    for name in names {
        texts.insert(name.name.as_str(), ())?;
    }
    Ok(texts)
}

fn check_required(
    alloc: Global,
    given: &HashMap<&str, ()>,
    definition: &InputValueDefinition,
    at: &Spot<'_>,
    faults: &mut Vec<Fault>,
) -> Result<(), AllocError>
    ensures { OnOk result (faults.new.items ≡ faults.old.items
        ++ (if is_some (hash.get_by (λ k. bytes_eq definition.now.name.text k.now) given.now)
        then []
        else fault_at rule.S32 definition.now.name.text (spot at.now))) }
{
    let name = definition.name.as_str();
    if !given.contains_key(name) {
        add_fault(alloc, Rule::S32, name, at, faults)?;
    }
    Ok(())
}

fn check_all_required(
    alloc: Global,
    given: &HashMap<&str, ()>,
    required: &[&InputValueDefinition],
    at: &Spot<'_>,
    faults: &mut Vec<Fault>,
) -> Result<(), AllocError>
    ensures { OnOk result (faults.new.items ≡ faults.old.items
        ++ flat_map (λ v. if is_some (hash.get_by (λ k. bytes_eq v.name.text k.now) given.now)
        then []
        else fault_at rule.S32 v.name.text (spot at.now)) (map (λ v. v.now) required.now)) }
{
    for definition in required {
        check_required(alloc, given, definition, at, faults)?;
    }
    Ok(())
}

fn check_missing(
    alloc: Global,
    signature: &Signature<'_>,
    applied: &Applied<'_>,
    given: &[NamePlace<'_>],
    faults: &mut Vec<Fault>,
) -> Result<(), AllocError>
    requires { map named given.now ≡ spec.given (application applied.now) }
    ensures { OnOk result (faults.new.items ≡ faults.old.items
        ++ flat_map (spec.fault_of_required (application applied.now))
        (map (λ v. v.now) signature.now.required.items)) }
{
    if signature.required.is_empty() {
        // nothing is missing
        return Ok(());
    }
    let texts = texts(alloc, given)?;
    let at = applied.spot();
    check_all_required(alloc, &texts, signature.required.as_slice(), &at, faults)?;
    Ok(())
}

#[tactic(auto, using(crate::proofs::Few::none_given))]
fn check_known(
    alloc: Global,
    signature: &Signature<'_>,
    applied: &Applied<'_>,
    faults: &mut Vec<Fault>,
) -> Result<(), AllocError>
    ensures { OnOk result (faults.new.items ≡ faults.old.items
        ++ spec.faults_by (Some signature.now.definition.now) (application applied.now)) }
{
    if applied.directive.arguments.is_empty() && signature.required.is_empty() {
        // nothing is given, and nothing is missing
        return Ok(());
    }
    let given = given(alloc, applied)?;
    check_all_given(alloc, signature, given.as_slice(), faults)?;
    add_repeated(alloc, Rule::S32, given.as_slice(), faults)?;
    check_missing(alloc, signature, applied, given.as_slice(), faults)?;
    Ok(())
}

fn check_unknown(
    alloc: Global,
    applied: &Applied<'_>,
    faults: &mut Vec<Fault>,
) -> Result<(), AllocError>
    ensures { OnOk result (faults.new.items ≡ faults.old.items
        ++ spec.faults_by None (application applied.now)) }
{
    let given = given(alloc, applied)?;
    add_repeated(alloc, Rule::S32, given.as_slice(), faults)?;
    Ok(())
}

fn check_applied(
    alloc: Global,
    resolved: &Resolved<'_, '_, '_>,
    faults: &mut Vec<Fault>,
) -> Result<(), AllocError>
    ensures { OnOk result (faults.new.items ≡ faults.old.items
        ++ spec.faults_by (resolution resolved.now).known (resolution resolved.now).application) }
{
    match resolved.signature {
        Some(signature) => check_known(alloc, signature, &resolved.applied, faults),
        None => check_unknown(alloc, &resolved.applied, faults),
    }
}

/// Adds the faults of the arguments of applied directives.
pub fn check(
    alloc: Global,
    all: &[Resolved<'_, '_, '_>],
    faults: &mut Vec<Fault>,
) -> Result<(), AllocError>
    ensures { OnOk result (faults.new.items ≡ faults.old.items
        ++ flat_map (λ r. spec.faults_by r.known r.application) (map resolution all.now)) }
{
    for resolved in all {
        check_applied(alloc, resolved, faults)?;
    }
    Ok(())
}
