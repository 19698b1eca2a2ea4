//! The references to types, by the role that the type has (GraphQL 3.3 to 3.13).
ghost use Rattle.std.specs.Prelude.{◌≡◌, ◌++◌, Some, IfOk, OnOk, map};
ghost use Rattle.gql_ast.specs.declared.type_ref.TypeRef.{TypeRef as TheTypeRef};
ghost use Rattle.gql_faults.specs.Places.{named};
ghost use Rattle.gql_faults.specs.TypeNames.{name_in};
ghost use Rattle.gql_types.specs.Parts.{sited, interfaces_of, members_of};
ghost use Rattle.gql_node_rules.specs.Borrowed.{one, lists};
ghost use Rattle.gql_node_rules.specs.Nodes.{each, within};
ghost use Rattle.gql_node_rules.specs.References as spec;
ghost use Rattle.gql_node_rules.specs.Resolved.{reference, roles, roles_of, with_kind};

use crate::node::Node;
use crate::nodes::Nodes;
use gql_ast::{
    FieldDefinition, FileName, InputValueDefinition, Name, RootOperation, SchemaDefinition,
    SchemaExtension, TypeParts, TypeRef,
};
use gql_faults::{NamePlace, named_type};
use gql_types::{Schema, TypeKind};
use std::alloc::{AllocError, Global};

/// A node that has a type.
pub trait Typed {
    ghost of_type: { Self → TheTypeRef };

    /// The type.
    fn of_type(&self) -> &TypeRef
        ensures { result.now ≡ of_type self.now };
}

impl Typed for FieldDefinition {
    ghost of_type = { λ f. f.of_type };

    fn of_type(&self) -> &TypeRef {
        &self.of_type
    }
}

impl Typed for InputValueDefinition {
    ghost of_type = { λ v. v.of_type };

    fn of_type(&self) -> &TypeRef {
        &self.of_type
    }
}

fn add_types<'t, T: Typed>(
    nodes: &[Node<'t, T>],
    found: &mut Vec<NamePlace<'t>>,
) -> Result<(), AllocError>
    ensures { OnOk result (map named found.new.items
        ≡ map named found.old.items ++ each (λ n. name_in (T.of_type n)) (map one nodes.now)) }
{
    for node in nodes {
        found.push(NamePlace {
            file: Some(node.file),
            name: named_type(node.node.of_type()),
        })?;
    }
    Ok(())
}

/// Adds the types of arguments and of input fields.
fn add_all_inputs<'t>(nodes: &Nodes<'t>, found: &mut Vec<NamePlace<'t>>) -> Result<(), AllocError>
    ensures { OnOk result (map named found.new.items
        ≡ map named found.old.items ++ spec.inputs (lists nodes.now)) }
{
    add_types(nodes.arguments.as_slice(), found)?;
    add_types(nodes.input_fields.as_slice(), found)?;
    Ok(())
}

/// The types of arguments and of input fields.
fn inputs<'t>(alloc: Global, nodes: &Nodes<'t>) -> Result<Vec<NamePlace<'t>>, AllocError>
    ensures { IfOk result (λ found. map named found.items ≡ spec.inputs (lists nodes.now)) }
{
    let count = nodes
        .arguments
        .len()
        .saturating_add(nodes.input_fields.len());
    let mut found = Vec::with_capacity(alloc, count)?;
    add_all_inputs(nodes, &mut found)?;
    Ok(found)
}

/// Adds the types of the fields of objects and interfaces.
fn add_all_outputs<'t>(nodes: &Nodes<'t>, found: &mut Vec<NamePlace<'t>>) -> Result<(), AllocError>
    ensures { OnOk result (map named found.new.items
        ≡ map named found.old.items ++ spec.outputs (lists nodes.now)) }
{
    add_types(nodes.fields.as_slice(), found)?;
    Ok(())
}

/// The types of the fields of objects and interfaces.
fn outputs<'t>(alloc: Global, nodes: &Nodes<'t>) -> Result<Vec<NamePlace<'t>>, AllocError>
    ensures { IfOk result (λ found. map named found.items ≡ spec.outputs (lists nodes.now)) }
{
    let mut found = Vec::with_capacity(alloc, nodes.fields.len())?;
    add_all_outputs(nodes, &mut found)?;
    Ok(found)
}

fn add_listed<'t>(
    file: &'t FileName,
    names: &'t [Name],
    found: &mut Vec<NamePlace<'t>>,
) -> Result<(), AllocError>
    ensures { OnOk result (map named found.new.items
        ≡ map named found.old.items ++ sited (Some file.now) names.now) }
{
    for name in names {
        found.push(NamePlace {
            file: Some(file),
            name,
        })?;
    }
    Ok(())
}

fn add_interfaces<'t>(
    parts: &Node<'t, TypeParts>,
    found: &mut Vec<NamePlace<'t>>,
) -> Result<(), AllocError>
    ensures { OnOk result (map named found.new.items ≡ map named found.old.items
        ++ sited (one parts.now).file (interfaces_of (one parts.now).node)) }
{
    match parts.node {
        TypeParts::Object { interfaces, .. } | TypeParts::Interface { interfaces, .. } => {
            add_listed(parts.file, interfaces.as_slice(), found)
        }
        _ => Ok(()),
    }
}

/// Adds the interfaces that types implement.
fn add_all_interfaces<'t>(
    nodes: &Nodes<'t>,
    found: &mut Vec<NamePlace<'t>>,
) -> Result<(), AllocError>
    ensures { OnOk result (map named found.new.items
        ≡ map named found.old.items ++ spec.interfaces (lists nodes.now)) }
{
    for parts in nodes.parts.as_slice() {
        add_interfaces(parts, found)?;
    }
    Ok(())
}

/// The interfaces that types implement.
fn interfaces<'t>(alloc: Global, nodes: &Nodes<'t>) -> Result<Vec<NamePlace<'t>>, AllocError>
    ensures { IfOk result (λ found. map named found.items ≡ spec.interfaces (lists nodes.now)) }
{
    let mut found = Vec::new(alloc);
    add_all_interfaces(nodes, &mut found)?;
    Ok(found)
}

fn add_members<'t>(
    parts: &Node<'t, TypeParts>,
    found: &mut Vec<NamePlace<'t>>,
) -> Result<(), AllocError>
    ensures { OnOk result (map named found.new.items ≡ map named found.old.items
        ++ sited (one parts.now).file (members_of (one parts.now).node)) }
{
    match parts.node {
        TypeParts::Union { members } => add_listed(parts.file, members.as_slice(), found),
        _ => Ok(()),
    }
}

/// Adds the members of unions.
fn add_all_members<'t>(nodes: &Nodes<'t>, found: &mut Vec<NamePlace<'t>>) -> Result<(), AllocError>
    ensures { OnOk result (map named found.new.items
        ≡ map named found.old.items ++ spec.members (lists nodes.now)) }
{
    for parts in nodes.parts.as_slice() {
        add_members(parts, found)?;
    }
    Ok(())
}

/// The members of unions.
fn members<'t>(alloc: Global, nodes: &Nodes<'t>) -> Result<Vec<NamePlace<'t>>, AllocError>
    ensures { IfOk result (λ found. map named found.items ≡ spec.members (lists nodes.now)) }
{
    let mut found = Vec::new(alloc);
    add_all_members(nodes, &mut found)?;
    Ok(found)
}

fn add_entries<'t>(
    file: &'t FileName,
    entries: &'t [RootOperation],
    found: &mut Vec<NamePlace<'t>>,
) -> Result<(), AllocError>
    ensures { OnOk result (map named found.new.items
        ≡ map named found.old.items ++ sited (Some file.now) (spec.types_in entries.now)) }
{
    for entry in entries {
        found.push(NamePlace {
            file: Some(file),
            name: &entry.name,
        })?;
    }
    Ok(())
}

fn add_schemas<'t>(
    schemas: &[Node<'t, SchemaDefinition>],
    found: &mut Vec<NamePlace<'t>>,
) -> Result<(), AllocError>
    ensures { OnOk result (map named found.new.items
        ≡ map named found.old.items ++ within (λ s. spec.types_in s.roots) (map one schemas.now)) }
{
    for schema in schemas {
        add_entries(schema.file, schema.node.roots.as_slice(), found)?;
    }
    Ok(())
}

fn add_schema_extensions<'t>(
    extensions: &[Node<'t, SchemaExtension>],
    found: &mut Vec<NamePlace<'t>>,
) -> Result<(), AllocError>
    ensures { OnOk result (map named found.new.items
        ≡ map named found.old.items ++ within (λ e. spec.types_in e.roots)
        (map one extensions.now)) }
{
    for extension in extensions {
        add_entries(extension.file, extension.node.roots.as_slice(), found)?;
    }
    Ok(())
}

/// Adds the root operation types of definitions and extensions of the schema.
fn add_all_roots<'t>(nodes: &Nodes<'t>, found: &mut Vec<NamePlace<'t>>) -> Result<(), AllocError>
    ensures { OnOk result (map named found.new.items
        ≡ map named found.old.items ++ spec.roots (lists nodes.now)) }
{
    add_schemas(nodes.schemas.as_slice(), found)?;
    add_schema_extensions(nodes.schema_extensions.as_slice(), found)?;
    Ok(())
}

/// The root operation types of definitions and extensions of the schema.
fn roots<'t>(alloc: Global, nodes: &Nodes<'t>) -> Result<Vec<NamePlace<'t>>, AllocError>
    ensures { IfOk result (λ found. map named found.items ≡ spec.roots (lists nodes.now)) }
{
    let mut found = Vec::new(alloc);
    add_all_roots(nodes, &mut found)?;
    Ok(found)
}

/// A reference to a type, and the kind of that type if it is known.
#[derive(Clone, Copy)]
pub struct Reference<'t> {
    pub name: NamePlace<'t>,
    pub kind: Option<TypeKind>,
}

/// These names, each with the kind of the type of that name.
fn with_kinds<'t>(
    alloc: Global,
    schema: &Schema,
    names: &[NamePlace<'t>],
) -> Result<Vec<Reference<'t>>, AllocError>
    ensures { IfOk result (λ found. map reference found.items
        ≡ map (with_kind schema.now) (map named names.now)) }
{
    let mut found = Vec::with_capacity(alloc, names.len())?;
    for name in names {
        found.push(Reference {
            name: *name,
            kind: schema.kind(name.name.as_str()),
        })?;
    }
    Ok(found)
}

/// All references, by the role that the type has.
#[derive(Drop)]
pub struct References<'t> {
    pub inputs: Vec<Reference<'t>>,
    pub outputs: Vec<Reference<'t>>,
    pub interfaces: Vec<Reference<'t>>,
    pub members: Vec<Reference<'t>>,
    pub roots: Vec<Reference<'t>>,
}

/// All references.
pub fn all_references<'t>(
    alloc: Global,
    schema: &Schema,
    nodes: &Nodes<'t>,
) -> Result<References<'t>, AllocError>
    ensures { IfOk result (λ found. roles found ≡ roles_of (lists nodes.now) schema.now) }
{
    let inputs = inputs(alloc, nodes)?;
    let outputs = outputs(alloc, nodes)?;
    let interfaces = interfaces(alloc, nodes)?;
    let members = members(alloc, nodes)?;
    let roots = roots(alloc, nodes)?;
    Ok(References {
        inputs: with_kinds(alloc, schema, inputs.as_slice())?,
        outputs: with_kinds(alloc, schema, outputs.as_slice())?,
        interfaces: with_kinds(alloc, schema, interfaces.as_slice())?,
        members: with_kinds(alloc, schema, members.as_slice())?,
        roots: with_kinds(alloc, schema, roots.as_slice())?,
    })
}
