//! S28, Extensions of Another Kind: an extension names a type of another kind.
//! <https://spec.graphql.org/October2021/#sec-Type-Extensions>
//!
//! At fault: `type Query { a: A } enum A { B } extend type A { c: Int }`
//! No fault: `type Query { a: A } enum A { B } extend enum A { C }`
ghost use Rattle.std.specs.Prelude.{◌≡◌, ◌++◌, OnOk};
ghost use Rattle.gql_node_rules.specs.Borrowed.{lists, one};
ghost use Rattle.gql_schema_rules.specs.S28ExtensionsOfAnotherKind as spec;

use gql_ast::{Fault, Rule, TypeExtension};
use gql_faults::{NamePlace, add_fault_of};
use gql_node_rules::{Node, Nodes};
use gql_types::{Schema, TypeKind};
use std::alloc::{AllocError, Global};

/// Adds the fault of an extension.
fn check_extension(
    alloc: Global,
    schema: &Schema,
    extension: &Node<'_, TypeExtension>,
    faults: &mut Vec<Fault>,
) -> Result<(), AllocError>
    ensures { OnOk result (faults.new.items
        ≡ faults.old.items ++ spec.fault_of_extension schema.now (one extension.now)) }
{
    if let Some(kind) = schema.kind(extension.node.name.as_str()) {
        if !kind.is(TypeKind::of(&extension.node.parts)) {
            let name = NamePlace {
                file: Some(extension.file),
                name: &extension.node.name,
            };
            add_fault_of(alloc, Rule::S28, &name, faults)?;
        }
    }
    Ok(())
}

/// Adds the faults by S28.
pub fn check(
    alloc: Global,
    schema: &Schema,
    nodes: &Nodes<'_>,
    faults: &mut Vec<Fault>,
) -> Result<(), AllocError>
    ensures { OnOk result (faults.new.items
        ≡ faults.old.items ++ spec.faults (lists nodes.now) schema.now) }
{
    for extension in nodes.type_extensions.as_slice() {
        check_extension(alloc, schema, extension, faults)?;
    }
    Ok(())
}
