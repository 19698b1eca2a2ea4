//! The nodes of schema files, each form in a list (GraphQL 3.3 to 3.13).
ghost use Rattle.std.specs.Prelude.{◌≡◌, ◌++◌, IfOk, OnOk, Some, map};
ghost use Rattle.gql_types.specs.Definitions.{of_files};
ghost use Rattle.gql_types.specs.Parts as parts_spec;
ghost use Rattle.gql_types.specs.Parts.{sited};
ghost use Rattle.gql_node_rules.specs.Borrowed.{one, lists};
ghost use Rattle.gql_node_rules.specs.FileFaults.{definitions_alone, nodes_of_file, without_types};
ghost use Rattle.gql_node_rules.specs.Nodes as spec;

use crate::node::{Holds, Node, add_all};
use crate::trees::{trees, trees_of};
use gql_ast::{
    DirectiveDefinition, Document, EnumValueDefinition, FieldDefinition, FileName, Files,
    InputValueDefinition, SchemaDefinition, SchemaExtension, Shared, Tree, TypeDefinition,
    TypeExtension, TypeParts,
};
use std::alloc::{AllocError, Global};

/// The nodes of schema files: definitions and extensions, the parts of types, and what these hold.
#[derive(Drop)]
pub struct Nodes<'t> {
    pub types: Vec<Node<'t, TypeDefinition>>,
    pub type_extensions: Vec<Node<'t, TypeExtension>>,
    pub directives: Vec<Node<'t, DirectiveDefinition>>,
    pub schemas: Vec<Node<'t, SchemaDefinition>>,
    pub schema_extensions: Vec<Node<'t, SchemaExtension>>,
    pub parts: Vec<Node<'t, TypeParts>>,
    pub fields: Vec<Node<'t, FieldDefinition>>,
    pub values: Vec<Node<'t, EnumValueDefinition>>,
    pub input_fields: Vec<Node<'t, InputValueDefinition>>,
    pub arguments: Vec<Node<'t, InputValueDefinition>>,
}

/// Adds these nodes of a file.
fn add_shared<'t, T: Drop>(
    file: &'t FileName,
    nodes: &'t [Shared<T>],
    found: &mut Vec<Node<'t, T>>,
) -> Result<(), AllocError>
    ensures { OnOk result (map one found.new.items ≡ map one found.old.items
        ++ sited (Some file.now) nodes.now) }
{
    for node in nodes {
        found.push(Node {
            file,
            node: node.get(),
        })?;
    }
    Ok(())
}

impl Holds<FieldDefinition> for TypeParts {
    ghost held = { parts_spec.fields_of };

    fn add_held<'t>(
        holder: &Node<'t, TypeParts>,
        found: &mut Vec<Node<'t, FieldDefinition>>,
    ) -> Result<(), AllocError> {
        match holder.node {
            TypeParts::Object { fields, .. } | TypeParts::Interface { fields, .. } => {
                add_shared(holder.file, fields.as_slice(), found)
            }
            _ => Ok(()),
        }
    }
}

impl Holds<EnumValueDefinition> for TypeParts {
    ghost held = { parts_spec.values_of };

    fn add_held<'t>(
        holder: &Node<'t, TypeParts>,
        found: &mut Vec<Node<'t, EnumValueDefinition>>,
    ) -> Result<(), AllocError> {
        match holder.node {
            TypeParts::Enum { values } => add_shared(holder.file, values.as_slice(), found),
            _ => Ok(()),
        }
    }
}

impl Holds<InputValueDefinition> for TypeParts {
    ghost held = { parts_spec.input_fields_of };

    fn add_held<'t>(
        holder: &Node<'t, TypeParts>,
        found: &mut Vec<Node<'t, InputValueDefinition>>,
    ) -> Result<(), AllocError> {
        match holder.node {
            TypeParts::InputObject { fields } => add_shared(holder.file, fields.as_slice(), found),
            _ => Ok(()),
        }
    }
}

impl Holds<InputValueDefinition> for FieldDefinition {
    ghost held = { λ f. f.arguments };

    fn add_held<'t>(
        holder: &Node<'t, FieldDefinition>,
        found: &mut Vec<Node<'t, InputValueDefinition>>,
    ) -> Result<(), AllocError> {
        add_shared(holder.file, holder.node.arguments.as_slice(), found)
    }
}

impl Holds<InputValueDefinition> for DirectiveDefinition {
    ghost held = { λ d. d.arguments };

    fn add_held<'t>(
        holder: &Node<'t, DirectiveDefinition>,
        found: &mut Vec<Node<'t, InputValueDefinition>>,
    ) -> Result<(), AllocError> {
        add_shared(holder.file, holder.node.arguments.as_slice(), found)
    }
}

/// Adds the parts of types.
fn add_parts_of_types<'t>(
    types: &[Node<'t, TypeDefinition>],
    found: &mut Vec<Node<'t, TypeParts>>,
) -> Result<(), AllocError>
    ensures { OnOk result (map one found.new.items ≡ map one found.old.items
        ++ spec.each (λ d. d.parts) (map one types.now)) }
{
    for definition in types {
        found.push(Node {
            file: definition.file,
            node: &definition.node.parts,
        })?;
    }
    Ok(())
}

/// Adds the parts of extensions of types.
fn add_parts_of_extensions<'t>(
    extensions: &[Node<'t, TypeExtension>],
    found: &mut Vec<Node<'t, TypeParts>>,
) -> Result<(), AllocError>
    ensures { OnOk result (map one found.new.items ≡ map one found.old.items
        ++ spec.each (λ e. e.parts) (map one extensions.now)) }
{
    for extension in extensions {
        found.push(Node {
            file: extension.file,
            node: &extension.node.parts,
        })?;
    }
    Ok(())
}

/// The nodes that all of these hold.
fn all_in<'t, A: Holds<T>, T: Drop>(
    alloc: Global,
    holders: &[Node<'t, A>],
) -> Result<Vec<Node<'t, T>>, AllocError>
    ensures { IfOk result (λ found. map one found.items
        ≡ spec.within A.held (map one holders.now)) }
{
    let mut found = Vec::new(alloc);
    add_all(holders, &mut found)?;
    Ok(found)
}

/// The parts of types and of their extensions.
fn parts<'t>(
    alloc: Global,
    types: &[Node<'t, TypeDefinition>],
    extensions: &[Node<'t, TypeExtension>],
) -> Result<Vec<Node<'t, TypeParts>>, AllocError>
    ensures { IfOk result (λ found. map one found.items
        ≡ spec.each (λ d. d.parts) (map one types.now) ++ spec.each (λ e. e.parts)
        (map one extensions.now)) }
{
    let mut found = Vec::new(alloc);
    add_parts_of_types(types, &mut found)?;
    add_parts_of_extensions(extensions, &mut found)?;
    Ok(found)
}

/// The arguments of fields and of directives.
fn arguments<'t>(
    alloc: Global,
    fields: &[Node<'t, FieldDefinition>],
    directives: &[Node<'t, DirectiveDefinition>],
) -> Result<Vec<Node<'t, InputValueDefinition>>, AllocError>
    ensures { IfOk result (λ found. map one found.items
        ≡ spec.within (λ f. f.arguments) (map one fields.now)
        ++ spec.within (λ d. d.arguments) (map one directives.now)) }
{
    let mut found = Vec::new(alloc);
    add_all(fields, &mut found)?;
    add_all(directives, &mut found)?;
    Ok(found)
}

/// The nodes of these definitions.
fn all_nodes<'t>(alloc: Global, trees: &[Node<'t, Tree>]) -> Result<Nodes<'t>, AllocError>
    ensures { IfOk result (λ nodes. lists nodes ≡ spec.nodes_of (map one trees.now)) }
{
    let types = all_in(alloc, trees)?;
    let type_extensions = all_in(alloc, trees)?;
    let directives = all_in(alloc, trees)?;
    let schemas = all_in(alloc, trees)?;
    let schema_extensions = all_in(alloc, trees)?;
    let parts = parts(alloc, types.as_slice(), type_extensions.as_slice())?;
    let fields = all_in(alloc, parts.as_slice())?;
    let values = all_in(alloc, parts.as_slice())?;
    let input_fields = all_in(alloc, parts.as_slice())?;
    let arguments = arguments(alloc, fields.as_slice(), directives.as_slice())?;
    Ok(Nodes {
        types,
        type_extensions,
        directives,
        schemas,
        schema_extensions,
        parts,
        fields,
        values,
        input_fields,
        arguments,
    })
}

/// The nodes of a schema file.
pub fn nodes_of_file(alloc: Global, document: &Document) -> Result<Nodes<'_>, AllocError>
    ensures { IfOk result (λ nodes. lists nodes ≡ nodes_of_file document.now) }
{
    let trees = trees_of(alloc, document)?;
    all_nodes(alloc, trees.as_slice())
}

/// The definitions and extensions of all schema files, without their parts. No field is visited.
pub fn definition_nodes(alloc: Global, files: &Files) -> Result<Nodes<'_>, AllocError>
    ensures { IfOk result (λ nodes. lists nodes
        ≡ definitions_alone (spec.nodes_of (of_files files.now.schema))) }
{
    let trees = trees(alloc, files)?;
    let trees = trees.as_slice();
    Ok(Nodes {
        types: all_in(alloc, trees)?,
        type_extensions: all_in(alloc, trees)?,
        directives: all_in(alloc, trees)?,
        schemas: all_in(alloc, trees)?,
        schema_extensions: all_in(alloc, trees)?,
        parts: Vec::new(alloc),
        fields: Vec::new(alloc),
        values: Vec::new(alloc),
        input_fields: Vec::new(alloc),
        arguments: Vec::new(alloc),
    })
}

/// The nodes of these definitions, without their parts, and without those that define a type.
pub fn nodes_of_others<'t>(alloc: Global, trees: &[Node<'t, Tree>]) -> Result<Nodes<'t>, AllocError>
    ensures { IfOk result (λ nodes. lists nodes
        ≡ without_types (spec.nodes_of (map one trees.now))) }
{
    Ok(Nodes {
        types: Vec::new(alloc),
        type_extensions: all_in(alloc, trees)?,
        directives: all_in(alloc, trees)?,
        schemas: all_in(alloc, trees)?,
        schema_extensions: all_in(alloc, trees)?,
        parts: Vec::new(alloc),
        fields: Vec::new(alloc),
        values: Vec::new(alloc),
        input_fields: Vec::new(alloc),
        arguments: Vec::new(alloc),
    })
}
