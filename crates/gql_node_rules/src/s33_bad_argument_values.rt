//! S33, Bad Argument Values: the value of an applied directive's argument does not fit its type.
//! <https://spec.graphql.org/October2021/#sec-Values-of-Correct-Type>
//!
//! At fault: `type Query { a: Int @deprecated(reason: 3) }`
//! No fault: `type Query { a: Int @deprecated(reason: "b") }`
ghost use Rattle.std.specs.Prelude.{◌≡◌, ◌++◌, Some, OnOk, map, flat_map};
ghost use Rattle.gql_node_rules.specs.Borrowed.{application};
ghost use Rattle.gql_node_rules.specs.Resolved.{resolution};
ghost use Rattle.gql_node_rules.specs.S33BadArgumentValues as spec;

use crate::applied::Applied;
use crate::resolved::Resolved;
use crate::signature::Signature;
use crate::value_faults::{ValuePlace, add_unless_fits};
use gql_ast::{Argument, Fault, Rule};
use gql_types::Schema;
use std::alloc::{AllocError, Global};

/// Adds the fault of one value that is given to a directive.
fn check_value(
    alloc: Global,
    schema: &Schema,
    signature: &Signature<'_>,
    applied: &Applied<'_>,
    argument: &Argument,
    faults: &mut Vec<Fault>,
) -> Result<(), AllocError>
    ensures { OnOk result (faults.new.items ≡ faults.old.items ++ spec.fault_of_value schema.now
        (application applied.now).file signature.now.definition.now.node.arguments argument.now) }
{
    if let Some(definition) = signature.argument(argument.name.as_str()) {
        let value = ValuePlace {
            file: applied.file,
            value: &argument.value,
        };
        add_unless_fits(alloc, Rule::S33, schema, definition, &value, faults)?;
    }
    Ok(())
}

/// Adds the faults of a directive that is defined.
fn check_known(
    alloc: Global,
    schema: &Schema,
    signature: &Signature<'_>,
    applied: &Applied<'_>,
    faults: &mut Vec<Fault>,
) -> Result<(), AllocError>
    ensures { OnOk result (faults.new.items ≡ faults.old.items
        ++ spec.faults_by schema.now (Some signature.now.definition.now)
        (application applied.now)) }
{
    for argument in applied.directive.arguments.as_slice() {
        check_value(alloc, schema, signature, applied, argument, faults)?;
    }
    Ok(())
}

/// Adds the faults of a directive.
fn check_applied(
    alloc: Global,
    schema: &Schema,
    resolved: &Resolved<'_, '_, '_>,
    faults: &mut Vec<Fault>,
) -> Result<(), AllocError>
    ensures { OnOk result (faults.new.items ≡ faults.old.items ++ spec.faults_by schema.now
        (resolution resolved.now).known (resolution resolved.now).application) }
{
    match resolved.signature {
        Some(signature) => check_known(alloc, schema, signature, &resolved.applied, faults),
        None => Ok(()),
    }
}

/// Adds the faults of the values that are given to applied directives.
pub fn check(
    alloc: Global,
    schema: &Schema,
    all: &[Resolved<'_, '_, '_>],
    faults: &mut Vec<Fault>,
) -> Result<(), AllocError>
    ensures { OnOk result (faults.new.items ≡ faults.old.items
        ++ flat_map (λ r. spec.faults_by schema.now r.known r.application)
        (map resolution all.now)) }
{
    for resolved in all {
        check_applied(alloc, schema, resolved, faults)?;
    }
    Ok(())
}
