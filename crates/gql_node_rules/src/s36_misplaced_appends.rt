//! S36, Misplaced Appends: `@append` is on a field that is not one of the mutation root type.
//! It is this registry's own rule.
//!
//! At fault: `type Query { a: Int @append(to: "l") }`
//! No fault:
//! `type Query { a: N } type N { b: Int } type Mutation { m(b: Int): N @append(to: "l") }`
ghost use Rattle.std.specs.Prelude.{◌≡◌, ◌++◌, OnOk, Some, map, flat_map};
ghost use Rattle.std.specs.Option.{option_copied};
ghost use Rattle.gql_faults.specs.Places.{named};
ghost use Rattle.gql_types.specs.Parts.{sited};
ghost use Rattle.gql_node_rules.specs.Borrowed.{lists, one};
ghost use Rattle.gql_node_rules.specs.S36MisplacedAppends as spec;

use crate::node::Node;
use crate::nodes::Nodes;
use gql_ast::{
    Directive, Fault, FieldDefinition, FileName, OperationKind, Rule, Shared, TypeDefinition,
    TypeExtension, TypeParts,
};
use gql_faults::{NamePlace, Spot, add_fault};
use gql_types::{Schema, SchemaType, TypeKind};
use std::alloc::{AllocError, Global};

/// The mutation root type, if the schema has one and it is an object.
pub fn mutation_root(schema: &Schema) -> Option<&SchemaType>
    ensures { option_copied result ≡ spec.mutation_root schema.now }
{
    let root = schema.root(OperationKind::Mutation)?;
    let of_type = schema.get(root.name.node.as_str())?;
    if of_type.kind.is(TypeKind::Object) {
        Some(of_type)
    } else {
        None
    }
}

/// Whether two definitions are in the same file. A built-in definition is in none.
fn is_same_file(file: Option<&FileName>, other: Option<&FileName>) -> bool
    ensures { result ≡ spec.is_same_file (option_copied file.entry) (option_copied other.entry) }
{
    match file {
        Some(file) => match other {
            Some(other) => file.as_str() == other.as_str(),
            None => false,
        },
        None => false,
    }
}

/// Whether two names are the same name in the same place.
fn is_same_name(name: &NamePlace<'_>, other: &NamePlace<'_>) -> bool
    ensures { result ≡ spec.is_same_name (named name.now) (named other.now) }
{
    name.name.as_str() == other.name.as_str()
        && (is_same_file(name.file, other.file)
            && name.name.place.offset == other.name.place.offset)
}

/// Whether a definition is that of the mutation root type, and not a second one of its name.
fn is_definition_of(root: Option<&SchemaType>, definition: &Node<'_, TypeDefinition>) -> bool
    ensures { result ≡ spec.is_definition_of (option_copied root.entry) (one definition.now) }
{
    match root {
        Some(root) => {
            let name = NamePlace {
                file: Some(definition.file),
                name: &definition.node.name,
            };
            is_same_name(&NamePlace::of_node(&root.definition), &name)
        }
        None => false,
    }
}

/// Whether an extension is one of the mutation root type.
fn is_extension_of(root: Option<&SchemaType>, extension: &Node<'_, TypeExtension>) -> bool
    ensures { result ≡ spec.is_extension_of (option_copied root.entry) (one extension.now) }
{
    match root {
        Some(root) => {
            let definition = root.definition.node.get();
            definition.name.as_str() == extension.node.name.as_str()
                && TypeKind::of(&definition.parts).is(TypeKind::of(&extension.node.parts))
        }
        None => false,
    }
}

/// Adds the fault of a directive on a field.
fn check_directive(
    alloc: Global,
    field: &Node<'_, FieldDefinition>,
    directive: &Directive,
    faults: &mut Vec<Fault>,
) -> Result<(), AllocError>
    ensures { OnOk result (faults.new.items ≡ faults.old.items
        ++ spec.fault_of_directive (one field.now) directive.now) }
{
    if "append" == directive.name.as_str() {
        let at = Spot {
            file: Some(field.file),
            place: directive.place,
        };
        add_fault(alloc, Rule::S36, field.node.name.as_str(), &at, faults)?;
    }
    Ok(())
}

/// Adds the faults of a field that is not one of the mutation root type.
fn check_field(
    alloc: Global,
    field: &Node<'_, FieldDefinition>,
    faults: &mut Vec<Fault>,
) -> Result<(), AllocError>
    ensures { OnOk result (faults.new.items ≡ faults.old.items
        ++ spec.faults_of_field (one field.now)) }
{
    for directive in field.node.directives.as_slice() {
        check_directive(alloc, field, directive, faults)?;
    }
    Ok(())
}

/// Adds the faults of these fields.
fn check_fields(
    alloc: Global,
    file: &FileName,
    fields: &[Shared<FieldDefinition>],
    faults: &mut Vec<Fault>,
) -> Result<(), AllocError>
    ensures { OnOk result (faults.new.items ≡ faults.old.items
        ++ flat_map spec.faults_of_field (sited (Some file.now) fields.now)) }
{
    for field in fields {
        let field = Node {
            file,
            node: field.get(),
        };
        check_field(alloc, &field, faults)?;
    }
    Ok(())
}

/// Adds the faults of the fields of another definition or extension.
fn check_parts(
    alloc: Global,
    file: &FileName,
    parts: &TypeParts,
    faults: &mut Vec<Fault>,
) -> Result<(), AllocError>
    ensures { OnOk result (faults.new.items ≡ faults.old.items
        ++ spec.faults_of_parts (Some file.now) parts.now) }
{
    match parts {
        TypeParts::Object { fields, .. } | TypeParts::Interface { fields, .. } => {
            check_fields(alloc, file, fields.as_slice(), faults)
        }
        _ => Ok(()),
    }
}

fn check_definition(
    alloc: Global,
    root: Option<&SchemaType>,
    definition: &Node<'_, TypeDefinition>,
    faults: &mut Vec<Fault>,
) -> Result<(), AllocError>
    ensures { OnOk result (faults.new.items ≡ faults.old.items
        ++ spec.faults_of_definition (option_copied root.entry) (one definition.now)) }
{
    if !is_definition_of(root, definition) {
        check_parts(alloc, definition.file, &definition.node.parts, faults)?;
    }
    Ok(())
}

fn check_extension(
    alloc: Global,
    root: Option<&SchemaType>,
    extension: &Node<'_, TypeExtension>,
    faults: &mut Vec<Fault>,
) -> Result<(), AllocError>
    ensures { OnOk result (faults.new.items ≡ faults.old.items
        ++ spec.faults_of_extension (option_copied root.entry) (one extension.now)) }
{
    if !is_extension_of(root, extension) {
        check_parts(alloc, extension.file, &extension.node.parts, faults)?;
    }
    Ok(())
}

/// Adds the faults of definitions of types.
pub fn check_definitions(
    alloc: Global,
    root: Option<&SchemaType>,
    definitions: &[Node<'_, TypeDefinition>],
    faults: &mut Vec<Fault>,
) -> Result<(), AllocError>
    ensures { OnOk result (faults.new.items ≡ faults.old.items
        ++ flat_map (spec.faults_of_definition (option_copied root.entry))
        (map one definitions.now)) }
{
    for definition in definitions {
        check_definition(alloc, root, definition, faults)?;
    }
    Ok(())
}

/// Adds the faults of extensions of types.
pub fn check_extensions(
    alloc: Global,
    root: Option<&SchemaType>,
    extensions: &[Node<'_, TypeExtension>],
    faults: &mut Vec<Fault>,
) -> Result<(), AllocError>
    ensures { OnOk result (faults.new.items ≡ faults.old.items
        ++ flat_map (spec.faults_of_extension (option_copied root.entry))
        (map one extensions.now)) }
{
    for extension in extensions {
        check_extension(alloc, root, extension, faults)?;
    }
    Ok(())
}

/// Adds the faults by S36.
pub fn check(
    alloc: Global,
    schema: &Schema,
    nodes: &Nodes<'_>,
    faults: &mut Vec<Fault>,
) -> Result<(), AllocError>
    ensures { OnOk result (faults.new.items ≡ faults.old.items
        ++ spec.faults (lists nodes.now) schema.now) }
{
    let root = mutation_root(schema);
    check_definitions(alloc, root, nodes.types.as_slice(), faults)?;
    check_extensions(alloc, root, nodes.type_extensions.as_slice(), faults)?;
    Ok(())
}
