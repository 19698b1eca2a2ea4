//! The directives that are applied to nodes (GraphQL 2.12), with the location of their node (3.13).
ghost use Rattle.std.specs.Prelude.{◌≡◌, ◌++◌, List, IfOk, OnOk, map, flat_map, take};
ghost use Rattle.gql_ast.specs.declared.literal.Directive.{Directive as TheDirective};
ghost use Rattle.gql_faults.specs.Places.{spot};
ghost use Rattle.gql_node_rules.specs.Applied as spec;
ghost use Rattle.gql_node_rules.specs.Borrowed.{one, lists, annotations, application};

use crate::node::Node;
use crate::nodes::Nodes;
use gql_ast::{
    Directive, DirectiveLocation, EnumValueDefinition, FieldDefinition, FileName,
    InputValueDefinition, Items, SchemaDefinition, SchemaExtension, TypeDefinition, TypeExtension,
    TypeParts,
};
use gql_built_in::name_of_source;
use gql_faults::Spot;
use gql_types::SchemaType;
use std::alloc::{AllocError, Global};

/// A node with the directives that are applied to it.
#[derive(Clone, Copy)]
pub struct Annotated<'t> {
    pub location: DirectiveLocation,
    pub file: Option<&'t FileName>,
    pub directives: &'t [Directive],
}

/// A directive that is applied to a node.
#[derive(Clone, Copy)]
pub struct Applied<'t> {
    pub location: DirectiveLocation,
    pub file: Option<&'t FileName>,
    pub directive: &'t Directive,
}

impl<'t> Applied<'t> {
    /// The directive's name.
    pub fn name(&self) -> &'t str
        ensures { result.now ≡ spec.name_of (application self.now) }
    {
        self.directive.name.as_str()
    }

    /// Its place, that of its `@`.
    pub fn spot(&self) -> Spot<'t>
        ensures { spot result ≡ spec.place_of (application self.now) }
    {
        Spot {
            file: self.file,
            place: self.directive.place,
        }
    }
}

/// A node that may have directives.
pub trait HasDirectives {
    ghost directives: { Self → List TheDirective };

    /// The directives.
    fn directives(&self) -> &Items<Directive>
        ensures { result.now ≡ directives self.now };
}

impl HasDirectives for SchemaDefinition {
    ghost directives = { λ n. n.directives };

    fn directives(&self) -> &Items<Directive> {
        &self.directives
    }
}

impl HasDirectives for SchemaExtension {
    ghost directives = { λ n. n.directives };

    fn directives(&self) -> &Items<Directive> {
        &self.directives
    }
}

impl HasDirectives for FieldDefinition {
    ghost directives = { λ n. n.directives };

    fn directives(&self) -> &Items<Directive> {
        &self.directives
    }
}

impl HasDirectives for InputValueDefinition {
    ghost directives = { λ n. n.directives };

    fn directives(&self) -> &Items<Directive> {
        &self.directives
    }
}

impl HasDirectives for EnumValueDefinition {
    ghost directives = { λ n. n.directives };

    fn directives(&self) -> &Items<Directive> {
        &self.directives
    }
}

/// Adds nodes of one location.
fn add_nodes<'t, T: HasDirectives>(
    location: DirectiveLocation,
    nodes: &[Node<'t, T>],
    found: &mut Vec<Annotated<'t>>,
) -> Result<(), AllocError>
    ensures { OnOk result (map annotations found.new.items
        ≡ map annotations found.old.items ++ spec.all_at location T.directives
        (map one nodes.now)) }
{
    for node in nodes {
        found.push(Annotated {
            location,
            file: Some(node.file),
            directives: node.node.directives().as_slice(),
        })?;
    }
    Ok(())
}

/// The location of a type, or of its extension.
fn location_of(parts: &TypeParts) -> DirectiveLocation
    ensures { result ≡ spec.location_of parts.now }
{
    match parts {
        TypeParts::Scalar => DirectiveLocation::Scalar,
        TypeParts::Object { .. } => DirectiveLocation::Object,
        TypeParts::Interface { .. } => DirectiveLocation::Interface,
        TypeParts::Union { .. } => DirectiveLocation::Union,
        TypeParts::Enum { .. } => DirectiveLocation::Enum,
        TypeParts::InputObject { .. } => DirectiveLocation::InputObject,
    }
}

/// Adds types.
fn add_types<'t>(
    types: &[Node<'t, TypeDefinition>],
    found: &mut Vec<Annotated<'t>>,
) -> Result<(), AllocError>
    ensures { OnOk result (map annotations found.new.items
        ≡ map annotations found.old.items ++ spec.types_at (map one types.now)) }
{
    for definition in types {
        found.push(Annotated {
            location: location_of(&definition.node.parts),
            file: Some(definition.file),
            directives: definition.node.directives.as_slice(),
        })?;
    }
    Ok(())
}

/// Adds extensions of types.
fn add_type_extensions<'t>(
    extensions: &[Node<'t, TypeExtension>],
    found: &mut Vec<Annotated<'t>>,
) -> Result<(), AllocError>
    ensures { OnOk result (map annotations found.new.items
        ≡ map annotations found.old.items ++ spec.type_extensions_at (map one extensions.now)) }
{
    for extension in extensions {
        found.push(Annotated {
            location: location_of(&extension.node.parts),
            file: Some(extension.file),
            directives: extension.node.directives.as_slice(),
        })?;
    }
    Ok(())
}

/// Adds the schema and its extensions.
fn add_schemas<'t>(nodes: &Nodes<'t>, found: &mut Vec<Annotated<'t>>) -> Result<(), AllocError>
    ensures { OnOk result (map annotations found.new.items
        ≡ map annotations found.old.items ++ spec.annotated_schemas (lists nodes.now)) }
{
    let location = DirectiveLocation::Schema;
    add_nodes(location, nodes.schemas.as_slice(), found)?;
    add_nodes(location, nodes.schema_extensions.as_slice(), found)?;
    Ok(())
}

/// Adds types and their extensions.
fn add_all_types<'t>(nodes: &Nodes<'t>, found: &mut Vec<Annotated<'t>>) -> Result<(), AllocError>
    ensures { OnOk result (map annotations found.new.items
        ≡ map annotations found.old.items ++ spec.annotated_types (lists nodes.now)) }
{
    add_types(nodes.types.as_slice(), found)?;
    add_type_extensions(nodes.type_extensions.as_slice(), found)?;
    Ok(())
}

/// Adds fields, arguments, input fields and enum values.
fn add_parts<'t>(nodes: &Nodes<'t>, found: &mut Vec<Annotated<'t>>) -> Result<(), AllocError>
    ensures { OnOk result (map annotations found.new.items
        ≡ map annotations found.old.items ++ spec.annotated_parts (lists nodes.now)) }
{
    let location = DirectiveLocation::FieldDefinition;
    add_nodes(location, nodes.fields.as_slice(), found)?;
    let location = DirectiveLocation::ArgumentDefinition;
    add_nodes(location, nodes.arguments.as_slice(), found)?;
    let location = DirectiveLocation::InputFieldDefinition;
    add_nodes(location, nodes.input_fields.as_slice(), found)?;
    add_nodes(DirectiveLocation::EnumValue, nodes.values.as_slice(), found)?;
    Ok(())
}

/// How many nodes may have directives. This is for the list's memory alone.
fn count(nodes: &Nodes<'_>) -> usize {
    let schemas = nodes
        .schemas
        .len()
        .saturating_add(nodes.schema_extensions.len());
    let types = nodes
        .types
        .len()
        .saturating_add(nodes.type_extensions.len());
    let fields = nodes.fields.len().saturating_add(nodes.input_fields.len());
    let parts = fields
        .saturating_add(nodes.arguments.len())
        .saturating_add(nodes.values.len());
    schemas.saturating_add(types).saturating_add(parts)
}

/// Every node that may have directives.
pub fn all_annotated<'t>(alloc: Global, nodes: &Nodes<'t>) -> Result<Vec<Annotated<'t>>, AllocError>
    ensures { IfOk result (λ found. map annotations found.items
        ≡ spec.annotated (lists nodes.now)) }
{
    let mut found = Vec::with_capacity(alloc, count(nodes))?;
    add_schemas(nodes, &mut found)?;
    add_all_types(nodes, &mut found)?;
    add_parts(nodes, &mut found)?;
    Ok(found)
}

/// Adds the directives of a node.
fn add_applied<'t>(node: &Annotated<'t>, found: &mut Vec<Applied<'t>>) -> Result<(), AllocError>
    ensures { OnOk result (map application found.new.items
        ≡ map application found.old.items ++ spec.applied_at (annotations node.now)) }
{
    for directive in node.directives {
        found.push(Applied {
            location: node.location,
            file: node.file,
            directive,
        })?;
    }
    Ok(())
}

/// The directives of all nodes.
pub fn all_applied<'t>(
    alloc: Global,
    nodes: &[Annotated<'t>],
) -> Result<Vec<Applied<'t>>, AllocError>
    ensures { IfOk result (λ found. map application found.items
        ≡ flat_map spec.applied_at (map annotations nodes.now)) }
{
    let mut found = Vec::new(alloc);
    for node in nodes {
        add_applied(node, &mut found)?;
    }
    Ok(found)
}

/// A type, which may be built in, and its extensions.
pub fn type_and_extensions(
    alloc: Global,
    of_type: &SchemaType,
) -> Result<Vec<Annotated<'_>>, AllocError>
    ensures { IfOk result (λ found. map annotations found.items
        ≡ spec.type_and_extensions of_type.now) }
{
    let definition = of_type.definition.node.get();
    let mut found = Vec::new(alloc);
    found.push(Annotated {
        location: location_of(&definition.parts),
        file: name_of_source(&of_type.definition.file),
        directives: definition.directives.as_slice(),
    })?;
    for extension in of_type.extensions.as_slice() {
        found.push(Annotated {
            location: location_of(&extension.node.get().parts),
            file: name_of_source(&extension.file),
            directives: extension.node.get().directives.as_slice(),
        })?;
    }
    Ok(found)
}

/// The first of these.
fn first_alone<T>(items: &[T]) -> &[T]
    ensures { result.now ≡ take 1 items.now }
{
    if items.is_empty() { items } else { &items[..1] }
}

/// The first definition of the schema, and all its extensions.
pub fn schema_and_extensions<'t>(
    alloc: Global,
    nodes: &Nodes<'t>,
) -> Result<Vec<Annotated<'t>>, AllocError>
    ensures { IfOk result (λ found. map annotations found.items
        ≡ spec.schema_and_extensions (lists nodes.now)) }
{
    let location = DirectiveLocation::Schema;
    let mut found = Vec::new(alloc);
    add_nodes(location, first_alone(nodes.schemas.as_slice()), &mut found)?;
    add_nodes(location, nodes.schema_extensions.as_slice(), &mut found)?;
    Ok(found)
}
